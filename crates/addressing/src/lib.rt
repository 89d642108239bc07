// The effective address: IPR- and PR-relative, then through at most 64 pointer words.
#![tactic(auto)]

ghost use Rattle.std.specs.Prelude.{◌≡◌, true, ◌+◌, ◌≤◌, length, take, drop};
ghost use Rattle.model.specs.Words.{instruction_in, descriptor_in};
ghost use Rattle.model.specs.Questions.{all, pointer_in_range};
ghost use Rattle.model.specs.Step as Step;
ghost use Rattle.words.specs.View.{as_pointer, PointerWithin};
ghost use Rattle.questions.specs.Numbers.{fault_number, number_by};
ghost use Rattle.segments.specs.Translation.{as_dbr};
ghost use Rattle.state.specs.View.{as_pointers, as_registers};
ghost use Rattle.addressing.specs.Address.{lent, tpr_of, KeptRight, looked, found, word_answer, asked, Walked, Addressed};

use questions::answer;
use questions::fault::Fault;
use segments::translate::{Dbr, descriptor_answer};
use state::Core;
use words::descriptor::Descriptor;
use words::pointer::Pointer;

// TPR, and how many pointer words were read.
#[derive(Clone, Copy)]
pub struct Address {
    pub pointer: Pointer,
    pub read: u64,
}

// A fault with its pointer, and how many pointer words were read before it.
#[derive(Clone, Copy)]
pub struct AddressFault {
    pub fault: Fault,
    pub pointer: Pointer,
    pub read: u64,
}

// A segment whose descriptor has passed 11 to 14; number 4,096 is none.
#[derive(Clone, Copy)]
struct PassedSegment {
    number: u64,
    descriptor: Descriptor,
}

// The two segments last used, the later first.
#[derive(Clone, Copy)]
struct Kept {
    first: PassedSegment,
    second: PassedSegment,
}

// TPR where a pointer word leads in a ring: its own ring is left out.
fn tpr(word: u64, ring: u64) -> Pointer
    requires { ring ≤ 7 }
    ensures { (as_pointer result ≡ tpr_of word ring) × PointerWithin result }
{
    let p = words::pointer::decode(word);
    Pointer { ring, ..p }
}

// The ring through a pointer word read at `t`: the largest of the three.
fn next_ring(t: Pointer, d: Descriptor, w: u64) -> u64
    requires { t.ring ≤ 7 }
    ensures { (result ≡ (Step.next_address (as_pointer t) (descriptor_in d.0) w).ring) × (result ≤ 7) }
{
    let p = words::pointer::decode(w);
    let r1 = words::descriptor::r1_of(d);
    t.ring.max(r1).max(p.ring)
}

// The descriptor segment's own words.
fn descriptors_of(dbr: Dbr, memory: &[u64]) -> &[u64]
    requires { dbr.address + dbr.length ≤ length memory.now }
    ensures { result.now ≡ take dbr.length (drop dbr.address memory.now) }
{
    let start = dbr.address as usize;
    let end = start + dbr.length as usize;
    &memory[start..end]
}

// 11 to 14 of a segment, asked of its descriptor in a memory of so many words.
#[tactic(auto, using(crate::proofs::WalkLaws::look_11))]
fn look(descriptors: &[u64], words: usize, segment: u64) -> Result<Descriptor, Fault>
    ensures { looked descriptors.now words segment result }
{
    let i = segment as usize;
    answer(i < descriptors.len(), Fault::NoDescriptor)?;
    let d = Descriptor(descriptors[i]);
    descriptor_answer(d, words)?;
    Ok(d)
}

// A segment put first; the one that was first is kept after it.
fn with_first(kept: Kept, segment: PassedSegment) -> Kept
    ensures { result ≡ record { first = segment; second = kept.first } }
{
    Kept {
        first: segment,
        second: kept.first,
    }
}

// 11 to 14 of a segment. They aren't asked again of one that is kept: nothing is written along a chain.
fn find(descriptors: &[u64], words: usize, kept: Kept, segment: u64) -> Result<Kept, Fault>
    requires { (segment ≤ 4095) × KeptRight descriptors.now words kept }
    ensures { found descriptors.now words segment result }
{
    if segment == kept.first.number {
        return Ok(kept);
    }
    if segment == kept.second.number {
        return Ok(with_first(kept, kept.second));
    }
    let descriptor = look(descriptors, words, segment)?;
    let last = PassedSegment {
        number: segment,
        descriptor,
    };
    Ok(with_first(kept, last))
}

// 15 and 22, of a descriptor that has passed.
#[tactic(auto, unfolding(crate::specs::Address::word_answer, model::specs::Questions::read_questions, model::specs::Questions::ask))]
fn word_answer(d: Descriptor, t: Pointer) -> Result<(), Fault>
    ensures { number_by fault_number result ≡ word_answer (as_pointer t) (descriptor_in d.0) }
{
    answer(
        t.word.0 < words::descriptor::length_of(d),
        Fault::WordOutsideSegment,
    )?;
    answer(questions::is_readable(d, t), Fault::NotReadable)
}

// 11 to 15 and 22 of a pointer word at `t`; its segment is kept first then.
fn ask(descriptors: &[u64], words: usize, kept: Kept, t: Pointer) -> Result<Kept, Fault>
    requires { PointerWithin t × KeptRight descriptors.now words kept }
    ensures { asked descriptors.now words (as_pointer t) result }
{
    let kept = find(descriptors, words, kept, t.segment.0)?;
    word_answer(kept.first.descriptor, t)?;
    Ok(kept)
}

// Through pointer words, the first at `first`, while I is on. From turn to turn the pointer word itself is carried, and the ring.
fn walk(descriptors: &[u64], memory: &[u64], first: Pointer) -> Result<Address, AddressFault>
    requires { PointerWithin first }
    ensures { Walked (lent descriptors.now) memory.now (as_pointer first) result }
{
    let mut word = words::pointer::encode(first);
    let mut ring = first.ring;
    let none = PassedSegment {
        number: 4096,
        descriptor: Descriptor(0),
    };
    let mut kept = Kept {
        first: none,
        second: none,
    };
    for read in 0..64 {
        let t = tpr(word, ring);
        kept = ask(descriptors, memory.len(), kept, t).map_err(move |fault| AddressFault {
            fault,
            pointer: t,
            read,
        })?;
        let d = kept.first.descriptor;
        word = segments::segment::read(memory, d, t.word);
        ring = next_ring(t, d, word);
        if !words::pointer::is_indirect(word) {
            return Ok(Address {
                pointer: tpr(word, ring),
                read: read + 1,
            });
        }
    }
    Err(AddressFault {
        fault: Fault::TooManyPointerWords,
        pointer: tpr(word, ring),
        read: 64,
    })
}

// TPR by way of pointer words. Where the descriptor segment lies and ends is worked out once.
pub fn effective(dbr: Dbr, memory: &[u64], first: Pointer) -> Result<Address, AddressFault>
    requires { (dbr.address + dbr.length ≤ length memory.now) × PointerWithin first }
    ensures { Addressed (as_dbr dbr) memory.now (as_pointer first) result }
{
    walk(descriptors_of(dbr, memory), memory, first)
}

// P off: from IPR. P on: from the PR, in the larger of the two rings.
pub fn first_address(core: Core, prs: &[u16; 24], w: u64) -> Pointer
    requires { (core.ipr.ring ≤ 7) × (core.ipr.segment.0 ≤ 4095) × (all pointer_in_range (as_pointers prs.now) ≡ true) }
    ensures { (as_pointer result ≡ Step.first_address (instruction_in w) (as_registers core prs.now)) × PointerWithin result }
{
    let ipr = core.ipr;
    let by = words::instruction::offset(w);
    if !words::instruction::is_by_pr(w) {
        return state::moved(ipr, by);
    }
    let p = state::prs::pr(prs, words::instruction::prnum(w));
    let ring = ipr.ring.max(p.ring);
    state::moved(Pointer { ring, ..p }, by)
}
