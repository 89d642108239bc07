// 1 to 4, then plain steps. All that they do is merged into `run_numbers`, the loop of steps with it; what is seldom done, a delivered
// fault and RCU, stays outside it, so that it costs the loop nothing.
#![tactic(auto)]

ghost use Rattle.std.specs.Prelude.{cond, true, false, [], ◌≡◌, ◌+◌, ◌^◌, ◌<◌};
ghost use Rattle.plain.specs.Plain.{core_of, PlainAs};

use answers::{Answered, answer_of};
use segments::translate::Dbr;
use state::Core;
use state::reply::Reply;
use words::pointer::{Pointer, SegmentNumber, WordNumber};

// A single step that faults has its own pointer words; a run leaves out those of the step at which it faults.
pub fn counted(single: bool, total: u64, last: u64) -> u64
    requires { total + last < 2 ^ 64 }
    ensures { result ≡ cond single (total + last) total }
{
    if single {
        return total + last;
    }
    total
}

// A, DBR and IPR come one by one, since a record would go through memory at each call, and the PRs where the host has them. `single`:
// pointer words as a single step has them. It has two callers, so that the compiler leaves it out of either.
fn run_numbers(
    a: u64,
    address: u64,
    length: u64,
    ring: u64,
    segment: u64,
    word: u64,
    prs: &mut [u16; 24],
    memory: &mut [u64],
    budget: u32,
    trace: &mut [u64],
    single: bool,
) -> Answered
    ensures { PlainAs single budget (core_of a address length ring segment word) prs.old memory.old trace.old result prs.new memory.new trace.new }
{
    let core = Core {
        a,
        dbr: Dbr { address, length },
        ipr: Pointer {
            ring,
            segment: SegmentNumber(segment),
            word: WordNumber(word),
        },
    };
    if let Err(error) = host::start::start_answer(core, prs, memory) {
        return answer_of(Reply::Refused(error.number()), core, 0);
    }
    let y = run::run(core, prs, memory, budget, trace);
    let reply = y.reply;
    let after = y.core;
    answer_of(reply, after, counted(single, y.total, y.last))
}

// Pointer words as a run counts them, and its trace.
pub fn run(
    core: Core,
    prs: &mut [u16; 24],
    memory: &mut [u64],
    budget: u32,
    trace: &mut [u64],
) -> Answered
    ensures { PlainAs false budget core prs.old memory.old trace.old result prs.new memory.new trace.new }
{
    run_numbers(
        core.a,
        core.dbr.address,
        core.dbr.length,
        core.ipr.ring,
        core.ipr.segment.0,
        core.ipr.word.0,
        prs,
        memory,
        budget,
        trace,
        false,
    )
}

// A single step, with its pointer words however it ends.
pub fn step(core: Core, prs: &mut [u16; 24], memory: &mut [u64]) -> Answered
    ensures { PlainAs true 1 core prs.old memory.old [] result prs.new memory.new [] }
{
    let mut none: [u64; 0] = [];
    run_numbers(
        core.a,
        core.dbr.address,
        core.dbr.length,
        core.ipr.ring,
        core.ipr.segment.0,
        core.ipr.word.0,
        prs,
        memory,
        1,
        &mut none,
        true,
    )
}
