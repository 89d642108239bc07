// A run of plain steps under a budget: the loop around the step, and its trace. What a step does not take from the word that passed before
// leaves the inner loop, so that the compiler lays it out of the way.
#![tactic(auto)]

ghost use Rattle.std.specs.Prelude.{◌≡◌, ◌≤◌, ◌<◌, length};
ghost use Rattle.model.specs.Registers.{no_delivery};
ghost use Rattle.model.specs.Questions.{start_questions};
ghost use Rattle.words.specs.View.{as_pointer, PointerWithin};
ghost use Rattle.segments.specs.Translation.{CodeRight};
ghost use Rattle.state.specs.View.{as_machine};
ghost use Rattle.dispatch.specs.Plain.{plain_step};
ghost use Rattle.processor.specs.Step.{ReadyToPerform, QuicklyFormed};
ghost use Rattle.run.specs.Run.{run_by, Counted, Noted, RanAs, Traced, WentAs, NextFormed};

use processor::{Formed, Instruction};
use state::reply::Reply;
use state::{After, Core, End};
use words::descriptor::Descriptor;
use words::pointer::Pointer;

// `total`: the pointer words of the completed steps; `last`: those of the step at which the run faults, else 0.
#[derive(Clone, Copy)]
pub struct Ran {
    pub reply: Reply,
    pub core: Core,
    pub total: u64,
    pub last: u64,
}

// Where the quick way led: the core after so many completed steps of the run, how it ended there, and the pointer words of the
// steps that it completed and of the one at which it faults.
#[derive(Clone, Copy)]
pub struct Went {
    pub core: Core,
    pub count: u32,
    pub end: End,
    pub read: u64,
    pub last: u64,
}

// IPR after a step and its pointer words, at the step's place in the trace; a step past the trace's end leaves it alone.
pub fn note(trace: &mut [u64], count: u32, p: Pointer, pointers: u64)
    requires { PointerWithin p × (pointers ≤ 64) }
    ensures { Noted count (record { ipr = as_pointer p; pointers = pointers }) trace.old trace.new }
{
    let i = count as usize;
    // Stays: after `get_mut` a proof knows of a slice its length alone.
    if i < trace.len() {
        trace[i] = words::pointer::encode(p) + 4294967296 * pointers;
    }
}

// The next instruction by the quick way, while the budget lasts.
fn next(
    code: Descriptor,
    core: Core,
    prs: &[u16; 24],
    memory: &[u64],
    count: u32,
    budget: u32,
) -> Option<Instruction>
    requires { (start_questions no_delivery (as_machine core prs.now memory.now) ≡ 0) × CodeRight code.0 core.ipr.ring (length memory.now) }
    ensures { NextFormed count budget (as_machine core prs.now memory.now) result }
{
    if budget <= count {
        return None;
    }
    processor::quick(code, core, prs, memory)
}

// Steps from an instruction that is formed, as far as the quick way leads; the first alone has read pointer words.
fn go_on(
    core: Core,
    first: Formed,
    prs: &mut [u16; 24],
    memory: &mut [u64],
    start: u32,
    budget: u32,
    trace: &mut [u64],
) -> Went
    requires { (start_questions no_delivery (as_machine core prs.old memory.old) ≡ 0) × ReadyToPerform (as_machine core prs.old memory.old) first.instruction.word first.instruction.pointer first.read × CodeRight first.code.0 core.ipr.ring (length memory.old) × (start < budget) }
    ensures { WentAs budget start (as_machine core prs.old memory.old) trace.old result (as_machine result.core prs.new memory.new) trace.new }
{
    let mut x = After {
        core,
        code: first.code,
        end: End::Completed,
    };
    let mut instruction = first.instruction;
    let mut pointers = first.read;
    let mut count = start;
    let mut going = true;
    // Stays: this is the loop of every step. One call of `perform` and no more carried than this give docs/PERFORMANCE.md's numbers.
    while going {
        x = dispatch::perform(
            x.core,
            x.code,
            prs,
            memory,
            instruction.word,
            instruction.pointer,
        );
        match x.end {
            End::Completed => note(trace, count, x.core.ipr, pointers),
            End::Halted => {
                note(trace, count, x.core.ipr, pointers);
                return Went {
                    core: x.core,
                    count: count + 1,
                    end: End::Halted,
                    read: first.read,
                    last: 0,
                };
            }
            End::Faulted(n, p) => {
                return Went {
                    core: x.core,
                    count,
                    end: End::Faulted(n, p),
                    read: first.read - pointers,
                    last: pointers,
                };
            }
        }
        count += 1;
        match next(x.code, x.core, prs, memory, count, budget) {
            None => {
                going = false;
            }
            Some(i) => {
                instruction = i;
                pointers = 0;
            }
        }
    }
    Went {
        core: x.core,
        count,
        end: End::Completed,
        read: first.read,
        last: 0,
    }
}

// Questions 1 to 4 were asked by the caller, and hold on from step to step.
// A trace of at least the budget's length holds IPR after each completed step, and its pointer words; a run that needs none lends
// an empty one.
pub fn run(
    core: Core,
    prs: &mut [u16; 24],
    memory: &mut [u64],
    budget: u32,
    trace: &mut [u64],
) -> Ran
    requires { start_questions no_delivery (as_machine core prs.old memory.old) ≡ 0 }
    ensures { RanAs no_delivery (run_by plain_step budget 0 (as_machine core prs.old memory.old)) result (as_machine result.core prs.new memory.new) × Traced plain_step budget (as_machine core prs.old memory.old) result trace.old trace.new × Counted plain_step budget (as_machine core prs.old memory.old) result }
{
    let mut at = core;
    let mut count: u32 = 0;
    let mut total: u64 = 0;
    while count < budget {
        match processor::form(at, prs, memory) {
            Err(f) => {
                return Ran {
                    reply: Reply::Fault(f.fault.number(), count, f.pointer),
                    core: at,
                    total,
                    last: f.read,
                };
            }
            Ok(formed) => {
                let y = go_on(at, formed, prs, memory, count, budget, trace);
                at = y.core;
                count = y.count;
                total += y.read;
                match y.end {
                    End::Completed => {}
                    End::Halted => {
                        return Ran {
                            reply: Reply::Halted(count),
                            core: at,
                            total,
                            last: 0,
                        };
                    }
                    End::Faulted(n, p) => {
                        return Ran {
                            reply: Reply::Fault(n, count, p),
                            core: at,
                            total,
                            last: y.last,
                        };
                    }
                }
            }
        }
    }
    Ran {
        reply: Reply::Spent(count),
        core: at,
        total,
        last: 0,
    }
}
