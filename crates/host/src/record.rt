// The register record that a host hands over, and the core's form of it.
ghost use Rattle.std.specs.Prelude.{◌≡◌, ◌≤◌};
ghost use Rattle.words.specs.View as Words;
ghost use Rattle.segments.specs.Translation.{as_dbr};
ghost use Rattle.host.specs.Record.{pointer_of, base_of, Converted};

use segments::translate::Dbr;
use state::{Core, Delivery};
use words::pointer::{SegmentNumber, WordNumber};

#[repr(C)]
#[derive(Clone, Copy, Default)]
pub struct Pointer {
    pub ring: u8,
    pub segment: u16,
    pub word: u16,
}

#[repr(C)]
#[derive(Clone, Copy, Default)]
pub struct DescriptorBase {
    pub address: u32,
    pub length: u16,
}

// In C the PRs are eight pointers: PR k has the three numbers from 3k on, and the upper byte of the first is padding there. What
// faults do stands there as three fields of the record.
#[repr(C)]
#[derive(Clone, Copy, Default)]
pub struct Registers {
    pub a: u64,
    pub dbr: DescriptorBase,
    pub ipr: Pointer,
    pub prs: [u16; 24],
    pub delivery: Delivery,
}

// The core's form of a pointer, and back.
impl From<Pointer> for words::pointer::Pointer {
    ghost from_gives = { λ p t. (Words.as_pointer t ≡ pointer_of p) × (t.ring ≤ 255) × (t.segment.0 ≤ 65535) × (t.word.0 ≤ 65535) };

    fn from(p: Pointer) -> words::pointer::Pointer {
        words::pointer::Pointer {
            ring: p.ring as u64,
            segment: SegmentNumber(p.segment as u64),
            word: WordNumber(p.word as u64),
        }
    }
}

// Stays: `From` can't say what it requires.
pub fn from_core(p: words::pointer::Pointer) -> Pointer
    requires { (p.ring ≤ 255) × (p.segment.0 ≤ 65535) × (p.word.0 ≤ 65535) }
    ensures { pointer_of result ≡ Words.as_pointer p }
{
    Pointer {
        ring: p.ring as u8,
        segment: p.segment.0 as u16,
        word: p.word.0 as u16,
    }
}

// The core's form of DBR, and back.
impl From<DescriptorBase> for Dbr {
    ghost from_gives = { λ d b. (as_dbr b ≡ base_of d) × (b.address ≤ 4294967295) × (b.length ≤ 65535) };

    fn from(d: DescriptorBase) -> Dbr {
        Dbr {
            address: d.address as u64,
            length: d.length as u64,
        }
    }
}

// Stays: `From` can't say what it requires.
pub fn from_base(b: Dbr) -> DescriptorBase
    requires { (b.address ≤ 4294967295) × (b.length ≤ 65535) }
    ensures { base_of result ≡ as_dbr b }
{
    DescriptorBase {
        address: b.address as u32,
        length: b.length as u16,
    }
}

// A, DBR and IPR for the core.
#[tactic(auto, using(crate::proofs::RecordLaws::registers_same))]
pub fn core_of(registers: Registers) -> Core
    ensures { Converted registers result }
{
    Core {
        a: registers.a,
        dbr: Dbr::from(registers.dbr),
        ipr: words::pointer::Pointer::from(registers.ipr),
    }
}
