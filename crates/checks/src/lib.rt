// May I call there? CALL's check of any pointer, over a register record and a memory that are only read.
#![tactic(auto)]

ghost use Rattle.std.specs.Prelude.{◌≡◌, ◌≤◌};
ghost use Rattle.model.specs.Registers.{zero_pointer, with_ring_at_least};
ghost use Rattle.model.specs.Answers.{check_numbers};
ghost use Rattle.model.specs.Check.{check};
ghost use Rattle.words.specs.View.{as_pointer, PointerWithin};
ghost use Rattle.host.specs.Record.{pointer_of, machine_of, delivery_of};
ghost use Rattle.checks.specs.View.{as_check, VerdictWithin, as_numbers};

use host::record::Registers;
use words::pointer::{Pointer, SegmentNumber, WordNumber};

pub mod line;

#[derive(Clone, Copy)]
pub enum Verdict {
    // The first no of 1 to 4.
    Refused(u8),
    // The first no of 11 to 15 and 26 to 30, and the pointer, its ring raised.
    Fault(u8, Pointer),
    // The ring that the call would go on in.
    Passes(u64),
}

// The pointer's ring, raised to at least IPR's.
fn raised(p: Pointer, ring: u64) -> Pointer
    requires { PointerWithin p × (ring ≤ 7) }
    ensures { (as_pointer result ≡ with_ring_at_least ring (as_pointer p)) × PointerWithin result }
{
    let ring = ring.max(p.ring);
    Pointer { ring, ..p }
}

// 1 to 4, the pointer under 2 as well; then 11 to 15 and 26 to 30 of the pointer, its ring raised.
pub fn ask(registers: Registers, memory: &[u64], ring: u8, segment: u16, word: u16) -> Verdict
    ensures { (as_check result ≡ check (delivery_of registers) (machine_of registers memory.now) (record { ring = ring; segment = segment; word = word })) × VerdictWithin result }
{
    let core = host::record::core_of(registers);
    let prs = registers.prs;
    let p = Pointer {
        ring: ring as u64,
        segment: SegmentNumber(segment as u64),
        word: WordNumber(word as u64),
    };
    let start = host::start::check_answer(registers.delivery, p, core, &prs, memory);
    if let Err(error) = start {
        return Verdict::Refused(error.number());
    }
    let t = raised(p, core.ipr.ring);
    match control::check(core.dbr, memory, core.ipr, t) {
        Err(fault) => Verdict::Fault(fault.number(), t),
        Ok(entry) => Verdict::Passes(entry.ring),
    }
}

// A verdict as numbers. Kinds: 0 refused, 3 fault, 4 passes; what a kind leaves free is 0.
#[repr(C)]
#[derive(Clone, Copy)]
pub struct Check {
    pub kind: u32,
    pub number: u32,
    pub ring: u32,
    pub pointer: host::record::Pointer,
}

fn nowhere() -> host::record::Pointer
    ensures { pointer_of result ≡ zero_pointer }
{
    host::record::Pointer {
        ring: 0,
        segment: 0,
        word: 0,
    }
}

fn numbers_of(verdict: Verdict) -> Check
    requires { VerdictWithin verdict }
    ensures { as_numbers result ≡ check_numbers (as_check verdict) }
{
    match verdict {
        Verdict::Refused(n) => Check {
            kind: 0,
            number: n as u32,
            ring: 0,
            pointer: nowhere(),
        },
        Verdict::Fault(n, t) => Check {
            kind: 3,
            number: n as u32,
            ring: 0,
            pointer: host::record::from_core(t),
        },
        Verdict::Passes(ring) => Check {
            kind: 4,
            number: 0,
            ring: ring as u32,
            pointer: nowhere(),
        },
    }
}

// The same as numbers.
pub fn may_call(registers: Registers, memory: &[u64], ring: u8, segment: u16, word: u16) -> Check
    ensures { as_numbers result ≡ check_numbers (check (delivery_of registers) (machine_of registers memory.now) (record { ring = ring; segment = segment; word = word })) }
{
    numbers_of(ask(registers, memory, ring, segment, word))
}
