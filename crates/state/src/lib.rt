// What a step works on by value, and what it and a run answer; the PRs in place.
#![tactic(auto)]

ghost use Rattle.std.specs.Prelude.{◌≡◌};
ghost use Rattle.model.specs.Registers as Registers;
ghost use Rattle.words.specs.View.{as_pointer};
ghost use Rattle.segments.specs.Translation.{as_dbr};
ghost use Rattle.questions.specs.Numbers.{fault_number};
ghost use Rattle.state.specs.View.{Becomes, Completes, faulted_after};

use questions::fault::Fault;
use segments::translate::Dbr;
use words::descriptor::Descriptor;
use words::pointer::{Pointer, WordNumber};

pub mod prs;
pub mod reply;

// A, DBR and IPR.
#[derive(Clone, Copy)]
pub struct Core {
    pub a: u64,
    pub dbr: Dbr,
    pub ipr: Pointer,
}

// The switch, the save segment and the handler segment; no step changes them.
#[repr(C)]
#[derive(Clone, Copy, Default)]
pub struct Delivery {
    pub switch: u16,
    pub save: u16,
    pub handler: u16,
}

// How a step ends.
#[derive(Clone, Copy)]
pub enum End {
    Completed,
    Halted,
    Faulted(u8, Pointer),
}

// The core after a step, and the descriptor that has passed for IPR's ring to execute: the next fetch compares it.
#[derive(Clone, Copy)]
pub struct After {
    pub core: Core,
    pub code: Descriptor,
    pub end: End,
}

// A pointer some words on; word numbers go round from 65,535 to 0.
#[tactic(auto, unfolding(model::specs::Registers::moved_by))]
pub fn moved(p: Pointer, words: u16) -> Pointer
    ensures { as_pointer result ≡ Registers.moved_by words (as_pointer p) }
{
    let word = ((p.word.0 % 65536) as u16).wrapping_add(words);
    Pointer {
        word: WordNumber(u64::from(word)),
        ..p
    }
}

#[tactic(auto, unfolding(model::specs::Registers::with_a))]
pub fn with_a(core: Core, a: u64) -> Core
    ensures { Becomes core (Registers.with_a a) result }
{
    Core { a, ..core }
}

#[tactic(auto, unfolding(model::specs::Registers::with_dbr))]
pub fn with_dbr(core: Core, dbr: Dbr) -> Core
    ensures { Becomes core (Registers.with_dbr (as_dbr dbr)) result }
{
    Core { dbr, ..core }
}

#[tactic(auto, unfolding(model::specs::Registers::with_ipr))]
pub fn with_ipr(core: Core, ipr: Pointer) -> Core
    ensures { Becomes core (Registers.with_ipr (as_pointer ipr)) result }
{
    Core { ipr, ..core }
}

// IPR goes on to the next instruction.
#[tactic(auto, using(crate::proofs::StateLaws::advanced_law))]
pub fn advanced(core: Core) -> Core
    ensures { Becomes core Registers.advanced result }
{
    with_ipr(core, moved(core.ipr, 1))
}

// A step that is complete in this segment, IPR moved on.
pub fn completed(core: Core, code: Descriptor) -> After
    ensures { Completes core code result }
{
    After {
        core: advanced(core),
        code,
        end: End::Completed,
    }
}

// A fault leaves the core as it was. Number 0 is no fault's: the loop says so that a step stops before opcode 42 (docs/DECISIONS.md, L4).
pub fn faulted(core: Core, code: Descriptor, number: u8, t: Pointer) -> After
    ensures { result ≡ faulted_after core code number t }
{
    After {
        core,
        code,
        end: End::Faulted(number, t),
    }
}

pub fn faulted_by(core: Core, code: Descriptor, fault: Fault, t: Pointer) -> After
    ensures { result ≡ faulted_after core code (fault_number fault) t }
{
    faulted(core, code, fault.number(), t)
}

// A step that stops before opcode 42.
pub fn stopped(core: Core, code: Descriptor, t: Pointer) -> After
    ensures { result ≡ faulted_after core code 0 t }
{
    faulted(core, code, 0, t)
}
