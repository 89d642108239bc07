// The laptop's program: an image on standard input, its listing on standard output.
#![tactic(auto)]

ghost use Rattle.std.specs.Prelude.{◌≡◌};
ghost use Rattle.model.specs.Questions.{start_questions};
ghost use Rattle.state.specs.View.{as_machine, as_delivery};

use chunks::Line;
use host::record::Registers;
use listing::Listed;
use state::{Core, Delivery};

// Prints a run's listing as its steps complete, and stops where nobody reads it any more.
fn print_listing(
    rt: &impl Print,
    delivery: Delivery,
    core: Core,
    start: [u16; 24],
    memory: &mut [u64],
    budget: u32,
)
    requires { start_questions (as_delivery delivery) (as_machine core start memory.old) ≡ 0 }
{
    let mut text = [0u8; 65536];
    let mut prs = start;
    let mut x = Listed {
        line: Line {
            core,
            length: 0,
            is_last: false,
            total: 0,
        },
        count: 0,
    };
    for _ in 0..u64::MAX {
        x = listing::list(
            delivery,
            x.line.core,
            &mut prs,
            memory,
            x.count,
            x.line.total,
            budget,
            &mut text,
        );
        let size = x.line.length;
        if !streams::print(rt, &text, size) {
            return;
        }
        if x.line.is_last {
            return;
        }
    }
}

// What an image gave: 1 to 4, then its run.
fn run_image(rt: &impl Print, registers: Registers, memory: &mut [u64], budget: u32) {
    match machine::prepare(registers, memory) {
        Ok(x) => print_listing(rt, registers.delivery, x.core, x.prs, memory, budget),
        Err(error) => streams::print_refusal(rt, error.number()),
    }
}

fn main(rt: HostRuntime) {
    let mut store = loading::empty_store();
    if let Some(start) = reading::image_on_input(&rt, &mut store) {
        let words = start.words as usize;
        run_image(&rt, start.registers, &mut store[..words], start.budget);
    }
}
