// The step at which a run of plain steps stopped: RCU performed, and a fault delivered where it can be.
#![tactic(auto)]

ghost use Rattle.std.specs.Prelude.{◌≡◌, length};
ghost use Rattle.model.specs.Registers as Registers;
ghost use Rattle.model.specs.Questions.{start_questions};
ghost use Rattle.model.specs.Program.{execute, faults};
ghost use Rattle.model.specs.Step.{step};
ghost use Rattle.words.specs.View.{as_pointer, PointerWithin};
ghost use Rattle.state.specs.View.{as_machine, as_delivery, Becomes};
ghost use Rattle.dispatch.specs.Plain.{stopped};
ghost use Rattle.settle.specs.Settles.{Settles};

use restore::Settled;
use state::{Core, Delivery, End};
use words::pointer::{Pointer, SegmentNumber, WordNumber};

// Where a delivered fault leads: ring 0, handler segment, word 0.
fn handled(delivery: Delivery, core: Core) -> Core
    ensures { Becomes core (Registers.with_ipr (record { ring = 0; segment = delivery.handler; word = 0 })) result }
{
    let p = Pointer {
        ring: 0,
        segment: SegmentNumber(u64::from(delivery.handler)),
        word: WordNumber(0),
    };
    state::with_ipr(core, p)
}

// A step that faults.
fn settle_fault(
    delivery: Delivery,
    core: Core,
    prs: &[u16; 24],
    memory: &mut [u64],
    number: u8,
    t: Pointer,
) -> Settled
    requires { (start_questions (as_delivery delivery) (as_machine core prs.now memory.old) ≡ 0) × (step (as_machine core prs.now memory.old) ≡ faults number (as_pointer t)) × PointerWithin t }
    ensures { Settles (as_delivery delivery) (as_machine core prs.now memory.old) result (as_machine result.core prs.now memory.new) }
{
    if frames::deliver(delivery, core, prs, memory, number, t) {
        return Settled {
            core: handled(delivery, core),
            end: End::Completed,
        };
    }
    Settled {
        core,
        end: End::Faulted(number, t),
    }
}

// It stopped with that number at that pointer; the number of RCU is 0.
pub fn settle(
    delivery: Delivery,
    core: Core,
    prs: &mut [u16; 24],
    memory: &mut [u64],
    number: u8,
    t: Pointer,
) -> Settled
    requires { (start_questions (as_delivery delivery) (as_machine core prs.old memory.old) ≡ 0) × (step (as_machine core prs.old memory.old) ≡ execute (as_machine core prs.old memory.old) (stopped (length memory.old) number (as_pointer t))) × PointerWithin t }
    ensures { Settles (as_delivery delivery) (as_machine core prs.old memory.old) result (as_machine result.core prs.new memory.new) }
{
    if number != 0 {
        return settle_fault(delivery, core, prs, memory, number, t);
    }
    let x = restore::restore(core, prs, memory, t);
    match x.end {
        End::Completed => x,
        End::Halted => x,
        End::Faulted(n, p) => settle_fault(delivery, x.core, prs, memory, n, p),
    }
}
