// A listing, a chunk of steps at a time, as many lines as a text has room for.
#![tactic(auto)]

ghost use Rattle.std.specs.Prelude.{◌≡◌, ◌+◌, ◌*◌, ◌≤◌, ◌<◌, length};
ghost use Rattle.model.specs.Questions.{start_questions};
ghost use Rattle.state.specs.View.{as_machine, as_delivery};
ghost use Rattle.listing.specs.Lines.{LinesWritten, WholeListing};

use chunks::Line;
use state::reply::Reply;
use state::{Core, Delivery};

// How many steps a chunk runs: so many are left, and a text has that room for their lines and a last one.
fn chunk_of(left: u32, room: usize) -> u32
    requires { (0 < left) × (128 ≤ room) }
    ensures { (0 < result) × (result ≤ left) × (result ≤ 256) × (64 * result + 64 ≤ room) }
{
    (left as usize).min(256).min(room / 64 - 1) as u32
}

// Lines from the text's start on, after which so many steps are complete.
#[derive(Clone, Copy)]
pub struct Listed {
    pub line: Line,
    pub count: u32,
}

// The lines of a run that goes on after `count` steps, which read `total` pointer words, until it ends or the text is full.
pub fn list(
    delivery: Delivery,
    core: Core,
    prs: &mut [u16; 24],
    memory: &mut [u64],
    count: u32,
    total: u64,
    budget: u32,
    text: &mut [u8],
) -> Listed
    requires { (start_questions (as_delivery delivery) (as_machine core prs.old memory.old) ≡ 0) × (count ≤ budget) × (total ≤ 64 * count) }
    ensures { LinesWritten (as_delivery delivery) (as_machine core prs.old memory.old) count total budget text.old result (as_machine result.line.core prs.new memory.new) text.new }
{
    let mut x = Line {
        core,
        length: 0,
        is_last: false,
        total,
    };
    let mut done = count;
    // Stays: a turn takes as many steps as the text has room for, so that no range counts them.
    while done < budget {
        let length = x.length;
        let room = text.len() - length;
        if room < 128 {
            return Listed {
                line: x,
                count: done,
            };
        }
        let steps = chunk_of(budget - done, room);
        x = chunks::list_chunk(
            delivery, x.core, prs, memory, done, x.total, steps, text, length,
        );
        if x.is_last {
            return Listed {
                line: x,
                count: done,
            };
        }
        done += steps;
    }
    let length = x.length;
    if 64 <= text.len() - length {
        x.length = endings::put_last_line(text, length, Reply::Spent(done), x.total);
        x.is_last = true;
    }
    Listed {
        line: x,
        count: done,
    }
}

// A whole listing, where the text has 64 bytes for each of its lines; how long it is.
pub fn list_whole(
    delivery: Delivery,
    core: Core,
    prs: [u16; 24],
    memory: &mut [u64],
    budget: u32,
    text: &mut [u8],
) -> usize
    requires { (start_questions (as_delivery delivery) (as_machine core prs memory.old) ≡ 0) × (64 * (budget + 1) ≤ length text.old) }
    ensures { WholeListing (as_delivery delivery) budget (as_machine core prs memory.old) text.old result text.new }
{
    let mut own = prs;
    let x = list(delivery, core, &mut own, memory, 0, 0, budget, text);
    x.line.length
}
