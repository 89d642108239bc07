// A run with its faults delivered and its frames taken up, in parts: plain steps, and the step at which they stop.
#![tactic(auto)]

ghost use Rattle.std.specs.Prelude.{◌≡◌, Some, None, ◌*◌, ◌≤◌, ◌<◌};
ghost use Rattle.model.specs.Registers.{no_delivery};
ghost use Rattle.model.specs.Questions.{start_questions};
ghost use Rattle.model.specs.Program.{faults};
ghost use Rattle.model.specs.Step.{pointer_words};
ghost use Rattle.model.specs.Deliver.{step_with};
ghost use Rattle.words.specs.View.{as_pointer, PointerWithin};
ghost use Rattle.state.specs.View.{as_machine, as_delivery};
ghost use Rattle.dispatch.specs.Plain.{plain_step};
ghost use Rattle.run.specs.Run.{run_by, RanAs, Traced, Counted};
ghost use Rattle.delivered.specs.Parts.{AtAStop, StepsAs, PartAs};

use answers::Answered;
use run::Ran;
use state::reply::Reply;
use state::{Core, Delivery, End};
use words::pointer::Pointer;

// Where a run ends: its reply, and the pointer words of the step at which it faults.
#[derive(Clone, Copy)]
struct RunEnd {
    reply: Reply,
    last: u64,
}

// What a part leaves: the completed steps of the run so far, the pointer words of this part's, and the run's end, if it is there.
#[derive(Clone, Copy)]
struct PartEnd {
    core: Core,
    count: u32,
    read: u64,
    end: Option<RunEnd>,
}

// The run goes on from there.
fn going_on(core: Core, count: u32, read: u64) -> PartEnd
    ensures { result ≡ record { core = core; count = count; read = read; end = None } }
{
    PartEnd {
        core,
        count,
        read,
        end: None,
    }
}

// It ends there.
fn ended(core: Core, count: u32, read: u64, reply: Reply, last: u64) -> PartEnd
    ensures { result ≡ record { core = core; count = count; read = read; end = Some (record { reply = reply; last = last }) } }
{
    PartEnd {
        core,
        count,
        read,
        end: Some(RunEnd { reply, last }),
    }
}

// Where the step after `count` others is noted; the end, where there is no room.
fn place_in(size: usize, count: u32) -> usize
    ensures { (result ≤ size) × (count ≤ size → result ≡ count) }
{
    let i = count as usize;
    if size < i {
        return size;
    }
    i
}

// Plain steps of a run from `count` on, noted in the rest of its trace.
fn steps(
    core: Core,
    prs: &mut [u16; 24],
    memory: &mut [u64],
    count: u32,
    budget: u32,
    trace: &mut [u64],
) -> Answered
    requires { (start_questions no_delivery (as_machine core prs.old memory.old) ≡ 0) × (count ≤ budget) }
    ensures { StepsAs budget count (as_machine core prs.old memory.old) trace.old result (as_machine result.core prs.new memory.new) trace.new }
{
    let start = place_in(trace.len(), count);
    plain::run(core, prs, memory, budget - count, &mut trace[start..])
}

// The pointer words of the step at which plain steps stopped: once more, as a single step, it stops there again.
fn words_of(core: Core, prs: &mut [u16; 24], memory: &mut [u64]) -> u64
    requires { (start_questions no_delivery (as_machine core prs.old memory.old) ≡ 0) × AtAStop (as_machine core prs.old memory.old) }
    ensures { (result ≡ pointer_words (as_machine core prs.old memory.old)) × (result ≤ 64) × (as_machine core prs.new memory.new ≡ as_machine core prs.old memory.old) }
{
    plain::step(core, prs, memory).pointers
}

// The step at which a part's plain steps stopped, after `count` steps of the run and `read` pointer words of the part.
fn stop(
    delivery: Delivery,
    core: Core,
    prs: &mut [u16; 24],
    memory: &mut [u64],
    number: u8,
    t: Pointer,
    count: u32,
    read: u64,
    budget: u32,
    trace: &mut [u64],
) -> PartEnd
    requires { (start_questions (as_delivery delivery) (as_machine core prs.old memory.old) ≡ 0) × (plain_step (as_machine core prs.old memory.old) ≡ faults number (as_pointer t)) × PointerWithin t × (count < budget) × (read ≤ 64 * count) }
    ensures { PartAs (as_delivery delivery) budget count read (as_machine core prs.old memory.old) trace.old result (as_machine result.core prs.new memory.new) trace.new }
{
    let last = words_of(core, prs, memory);
    let y = settle::settle(delivery, core, prs, memory, number, t);
    let after = y.core;
    match y.end {
        End::Completed => {
            run::note(trace, count, after.ipr, last);
            going_on(after, count + 1, read + last)
        }
        End::Halted => {
            run::note(trace, count, after.ipr, last);
            ended(after, count + 1, read + last, Reply::Halted(count + 1), 0)
        }
        End::Faulted(n, p) => ended(after, count, read, Reply::Fault(n, count, p), last),
    }
}

// A part of a run from `count` on.
fn part(
    delivery: Delivery,
    core: Core,
    prs: &mut [u16; 24],
    memory: &mut [u64],
    count: u32,
    budget: u32,
    trace: &mut [u64],
) -> PartEnd
    requires { (start_questions (as_delivery delivery) (as_machine core prs.old memory.old) ≡ 0) × (count ≤ budget) }
    ensures { PartAs (as_delivery delivery) budget count 0 (as_machine core prs.old memory.old) trace.old result (as_machine result.core prs.new memory.new) trace.new }
{
    let x = steps(core, prs, memory, count, budget, trace);
    let after = x.core;
    match answers::reply_of(x) {
        Reply::Refused(n) => ended(after, count, 0, Reply::Refused(n), 0),
        Reply::Spent(c) => ended(after, count + c, x.pointers, Reply::Spent(count + c), 0),
        Reply::Halted(c) => ended(after, count + c, x.pointers, Reply::Halted(count + c), 0),
        Reply::Fault(n, c, t) => stop(
            delivery,
            after,
            prs,
            memory,
            n,
            t,
            count + c,
            x.pointers,
            budget,
            trace,
        ),
    }
}

// Questions 1 to 4 were asked by the caller, and hold on from part to part.
pub fn run(
    delivery: Delivery,
    core: Core,
    prs: &mut [u16; 24],
    memory: &mut [u64],
    budget: u32,
    trace: &mut [u64],
) -> Ran
    requires { start_questions (as_delivery delivery) (as_machine core prs.old memory.old) ≡ 0 }
    ensures { RanAs (as_delivery delivery) (run_by (step_with (as_delivery delivery)) budget 0 (as_machine core prs.old memory.old)) result (as_machine result.core prs.new memory.new) × Traced (step_with (as_delivery delivery)) budget (as_machine core prs.old memory.old) result trace.old trace.new × Counted (step_with (as_delivery delivery)) budget (as_machine core prs.old memory.old) result }
{
    let mut at = core;
    let mut count = 0;
    let mut total = 0;
    loop {
        let x = part(delivery, at, prs, memory, count, budget, trace);
        total += x.read;
        if let Some(end) = x.end {
            return Ran {
                reply: end.reply,
                core: x.core,
                total,
                last: end.last,
            };
        }
        at = x.core;
        count = x.count;
    }
}
