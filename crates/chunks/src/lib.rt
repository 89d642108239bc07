// A chunk of a listing: some steps of a run and their lines, with the last line where the run ends with them.
#![tactic(auto)]

ghost use Rattle.std.specs.Prelude.{◌≡◌, ◌+◌, ◌*◌, ◌/◌, ◌^◌, ◌≤◌, ◌<◌, length, take};
ghost use Rattle.model.specs.Questions.{start_questions};
ghost use Rattle.model.specs.Listing.{step_line, step_lines};
ghost use Rattle.state.specs.View.{as_machine, as_delivery};
ghost use Rattle.state.specs.Reply.{ReplyWithin, completed};
ghost use Rattle.run.specs.Run.{step_in, noted_steps};
ghost use Rattle.text.specs.Text.{Put};
ghost use Rattle.lines.specs.Kept.{Kept};
ghost use Rattle.chunks.specs.Chunk.{Few, ends_run, ending, ChunkWritten, ChunkListed};

use endings::put_last_line;
use lines::Number;
use state::reply::Reply;
use state::{Core, Delivery};

// Where lines end, whether the last of them ends the listing, and the pointer words of the run so far.
// Stays: a flag, since place, core and total are there on both sides of it.
#[derive(Clone, Copy)]
pub struct Line {
    pub core: Core,
    pub length: usize,
    pub is_last: bool,
    pub total: u64,
}

// What a chunk's run answers, its pointer words, and where its steps' lines end.
#[derive(Clone, Copy)]
struct Chunk {
    reply: Reply,
    core: Core,
    total: u64,
    length: usize,
}

// The completed steps that a reply counts.
fn steps_of(reply: Reply) -> u32
    ensures { result ≡ completed reply }
{
    match reply {
        Reply::Refused(_number) => 0,
        Reply::Spent(count) => count,
        Reply::Halted(count) => count,
        Reply::Fault(_number, count, _t) => count,
    }
}

// The line of a step, from the word of the trace that holds IPR after it and its pointer words.
fn put_step(text: &mut [u8], at: usize, tens: &[u8; 10], number: Number, word: u64) -> usize
    requires { (at + 64 ≤ length text.old) × Kept tens.now number × (word / 4294967296 ≤ 64) }
    ensures { Put 64 at (step_line number.value (step_in word)) text.old text.new result }
{
    let p = words::pointer::decode(word);
    lines::put_step_line(text, at, tens, number, p, word / 4294967296)
}

// The lines of so many steps, from their trace.
fn put_steps(text: &mut [u8], at: usize, count: u32, trace: &[u64], steps: u32) -> usize
    requires { (at + 64 * steps ≤ length text.old) × (steps ≤ length trace.now) × (count + steps < 2 ^ 32) × Few (noted_steps (take steps trace.now)) }
    ensures { Put (64 * steps) at (step_lines count (noted_steps (take steps trace.now))) text.old text.new result }
{
    let mut tens = [b'0'; 10];
    let mut number = lines::number_of(&mut tens, count);
    let mut end = at;
    let noted = &trace[..steps as usize];
    for word in noted {
        number = lines::next(&mut tens, number);
        end = put_step(text, end, &tens, number, *word);
    }
    end
}

// A run of at most 256 steps, and the lines of those that it completes.
fn put_chunk(
    delivery: Delivery,
    core: Core,
    prs: &mut [u16; 24],
    memory: &mut [u64],
    count: u32,
    steps: u32,
    text: &mut [u8],
    at: usize,
) -> Chunk
    requires { (start_questions (as_delivery delivery) (as_machine core prs.old memory.old) ≡ 0) × (at + 64 * steps ≤ length text.old) × (steps ≤ 256) × (count + steps < 2 ^ 32) }
    ensures { ChunkWritten (as_delivery delivery) (as_machine core prs.old memory.old) count steps at text.old result (as_machine result.core prs.new memory.new) text.new }
{
    let mut trace = [0; 256];
    let y = machine::run(
        core.a,
        core.dbr.address,
        core.dbr.length,
        core.ipr.ring,
        core.ipr.segment.0,
        core.ipr.word.0,
        prs,
        memory,
        steps,
        &mut trace,
        delivery,
        false,
    );
    let reply = answers::reply_of(y);
    let after = y.core;
    let length = put_steps(text, at, count, &trace, steps_of(reply));
    Chunk {
        reply,
        core: after,
        total: y.pointers,
        length,
    }
}

// Does a reply end the run, whatever steps were left?
fn ends_run(reply: Reply) -> bool
    ensures { result ≡ ends_run reply }
{
    !matches!(reply, Reply::Spent(_))
}

// The last line, where a chunk's reply ends the run, with the total of the whole run; the answer is the place after it.
fn put_ending(text: &mut [u8], at: usize, count: u32, total: u64, reply: Reply) -> usize
    requires { (at + 64 ≤ length text.old) × ReplyWithin reply × (count + completed reply < 2 ^ 32) }
    ensures { Put 64 at (ending count total reply) text.old text.new result }
{
    match reply {
        Reply::Refused(n) => put_last_line(text, at, Reply::Refused(n), total),
        Reply::Spent(_steps) => at,
        Reply::Halted(steps) => put_last_line(text, at, Reply::Halted(count + steps), total),
        Reply::Fault(n, steps, t) => put_last_line(
            text,
            at,
            Reply::Fault(n, count + steps, t),
            total,
        ),
    }
}

// The lines of a chunk, and the last line where the run ends with it.
pub fn list_chunk(
    delivery: Delivery,
    core: Core,
    prs: &mut [u16; 24],
    memory: &mut [u64],
    count: u32,
    total: u64,
    steps: u32,
    text: &mut [u8],
    at: usize,
) -> Line
    requires { (start_questions (as_delivery delivery) (as_machine core prs.old memory.old) ≡ 0) × (at + 64 * steps + 64 ≤ length text.old) × (steps ≤ 256) × (count + steps < 2 ^ 32) × (total ≤ 64 * count) }
    ensures { ChunkListed (as_delivery delivery) (as_machine core prs.old memory.old) count total steps at text.old result (as_machine result.core prs.new memory.new) text.new }
{
    let x = put_chunk(delivery, core, prs, memory, count, steps, text, at);
    let reply = x.reply;
    let sum = total + x.total;
    let length = put_ending(text, x.length, count, sum, reply);
    let core = x.core;
    Line {
        core,
        length,
        is_last: ends_run(reply),
        total: sum,
    }
}
