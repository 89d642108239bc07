// What a descriptor lets a ring do, and the questions by use, after 11 to 15: 21 to 30, and 15 of the rest of a frame, each use's in order.
#![tactic(auto)]

pub mod fault;
pub mod start;

ghost use Rattle.std.specs.Prelude.{◌≡◌, ◌≤◌, true, false, MatchResult};
ghost use Rattle.model.specs.Words.{descriptor_in};
ghost use Rattle.model.specs.Questions as Questions;
ghost use Rattle.words.specs.View.{as_pointer};
ghost use Rattle.questions.specs.Numbers.{fault_number, number_by};
ghost use Rattle.questions.specs.Use.{questions_of};

use crate::fault::Fault;
use words::descriptor::Descriptor;
use words::pointer::Pointer;

// What a segment is used for.
#[derive(Clone, Copy)]
pub enum Use {
    Fetch,
    Read,
    Write,
    Transfer,
    Return,
    Call,
    Frame,
}

// 21 and 25: E on, and the ring in the execute bracket?
#[tactic(auto, unfolding(model::specs::Questions::may_execute))]
fn is_executable(d: Descriptor, p: Pointer) -> bool
    ensures { result ≡ Questions.may_execute (as_pointer p) (descriptor_in d.0) }
{
    words::descriptor::is_execute_on(d)
        & ((words::descriptor::r1_of(d) <= p.ring) & (p.ring <= words::descriptor::r2_of(d)))
}

// 22: R on, and the ring in the read bracket?
#[tactic(auto, unfolding(model::specs::Questions::may_read))]
pub fn is_readable(d: Descriptor, p: Pointer) -> bool
    ensures { result ≡ Questions.may_read (as_pointer p) (descriptor_in d.0) }
{
    words::descriptor::is_read_on(d) & (p.ring <= words::descriptor::r2_of(d))
}

// 23: W on, and the ring in the write bracket?
#[tactic(auto, unfolding(model::specs::Questions::may_write))]
fn is_writable(d: Descriptor, p: Pointer) -> bool
    ensures { result ≡ Questions.may_write (as_pointer p) (descriptor_in d.0) }
{
    words::descriptor::is_write_on(d) & (p.ring <= words::descriptor::r1_of(d))
}

// One question's answer: a no is its fault.
pub fn answer(may: bool, fault: Fault) -> Result<(), Fault>
    ensures { MatchResult result (λ _. may ≡ true) (λ e. (may ≡ false) × (e ≡ fault)) }
{
    if may { Ok(()) } else { Err(fault) }
}

// 24, then 25.
#[tactic(auto, unfolding(model::specs::Questions::transfer_questions, model::specs::Questions::return_questions, model::specs::Questions::ask))]
fn transfer_answer(ipr: Pointer, t: Pointer, d: Descriptor) -> Result<(), Fault>
    ensures { number_by fault_number result ≡ Questions.transfer_questions (as_pointer ipr) (as_pointer t) (descriptor_in d.0) }
{
    answer(t.ring == ipr.ring, Fault::TransferFromOtherRing)?;
    answer(is_executable(d, t), Fault::TransferNotExecutable)
}

// CALL's new ring.
#[tactic(auto, unfolding(model::specs::Questions::new_ring))]
pub fn new_ring(t: Pointer, d: Descriptor) -> u64
    ensures { (result ≡ Questions.new_ring (as_pointer t) (descriptor_in d.0)) × (result ≤ 7) }
{
    t.ring.min(words::descriptor::r2_of(d))
}

// 26 to 30.
#[tactic(auto, unfolding(model::specs::Questions::call_questions, model::specs::Questions::ask))]
fn call_answer(ipr: Pointer, t: Pointer, d: Descriptor) -> Result<(), Fault>
    ensures { number_by fault_number result ≡ Questions.call_questions (as_pointer ipr) (as_pointer t) (descriptor_in d.0) }
{
    answer(
        words::descriptor::is_execute_on(d),
        Fault::CallNotExecutable,
    )?;
    let is_inside = (t.segment.0 == ipr.segment.0) | (t.word.0 < words::descriptor::gate_of(d));
    answer(is_inside, Fault::CallNotToGate)?;
    answer(t.ring <= words::descriptor::r3_of(d), Fault::CallAboveGates)?;
    answer(
        words::descriptor::r1_of(d) <= t.ring,
        Fault::CallBelowBracket,
    )?;
    answer(new_ring(t, d) <= ipr.ring, Fault::CallRaisesRing)
}

// 15 of each of a frame's thirteen words, the first of which is at `t`, then 22. The first word's own 15 bounds the sum.
#[tactic(auto, unfolding(model::specs::Questions::part_questions, model::specs::Questions::word_questions, model::specs::Questions::read_questions, model::specs::Questions::then_ask, model::specs::Questions::ask))]
fn frame_answer(t: Pointer, d: Descriptor) -> Result<(), Fault>
    ensures { number_by fault_number result ≡ Questions.part_questions 13 (as_pointer t) (descriptor_in d.0) }
{
    let length = words::descriptor::length_of(d);
    answer(t.word.0 < length, Fault::WordOutsideSegment)?;
    answer(t.word.0 + 12 < length, Fault::WordOutsideSegment)?;
    answer(is_readable(d, t), Fault::NotReadable)
}

// Those of a use by the instruction at `ipr`, of the pointer `t`.
#[tactic(auto, unfolding(model::specs::Questions::fetch_questions, model::specs::Questions::read_questions, model::specs::Questions::write_questions, model::specs::Questions::return_questions, model::specs::Questions::ask))]
pub fn use_answer(by: Use, ipr: Pointer, t: Pointer, d: Descriptor) -> Result<(), Fault>
    ensures { number_by fault_number result ≡ questions_of by (as_pointer ipr) (as_pointer t) (descriptor_in d.0) }
{
    match by {
        Use::Fetch => answer(is_executable(d, t), Fault::NotFetchable),
        Use::Read => answer(is_readable(d, t), Fault::NotReadable),
        Use::Write => answer(is_writable(d, t), Fault::NotWritable),
        Use::Transfer => transfer_answer(ipr, t, d),
        Use::Return => answer(is_executable(d, t), Fault::TransferNotExecutable),
        Use::Call => call_answer(ipr, t, d),
        Use::Frame => frame_answer(t, d),
    }
}
