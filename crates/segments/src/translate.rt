// Translation of a pointer through its segment's descriptor: questions 11 to 15.
ghost use Rattle.std.specs.Prelude.{◌≡◌, ◌+◌, ◌≤◌, length};
ghost use Rattle.words.specs.View.{as_pointer};
ghost use Rattle.questions.specs.Numbers.{fault_number, number_by};
ghost use Rattle.segments.specs.Translation.{as_dbr, descriptor_answer, word_answer, translated};

use questions::answer;
use questions::fault::Fault;
use words::descriptor::Descriptor;
use words::pointer::{Pointer, WordNumber};

// The descriptor segment.
#[derive(Clone, Copy)]
pub struct Dbr {
    pub address: u64,
    pub length: u64,
}

// 12 to 14 of a descriptor in a memory of so many words.
#[tactic(auto, unfolding(crate::specs::Translation::descriptor_answer, model::specs::Questions::segment_questions, model::specs::Questions::ask))]
pub fn descriptor_answer(d: Descriptor, words: usize) -> Result<(), Fault>
    ensures { number_by fault_number result ≡ descriptor_answer words d.0 }
{
    answer(words::descriptor::is_valid(d), Fault::NotValid)?;
    let r2 = words::descriptor::r2_of(d);
    let are_in_order = (words::descriptor::r1_of(d) <= r2) & (r2 <= words::descriptor::r3_of(d));
    answer(are_in_order, Fault::RingsOutOfOrder)?;
    let end = words::descriptor::address_of(d) as usize + words::descriptor::length_of(d) as usize;
    answer(end <= words, Fault::SegmentOutsideMemory)
}

// 12 to 15 of a descriptor, wherever it was found.
#[tactic(auto, unfolding(crate::specs::Translation::word_answer, model::specs::Questions::word_questions, model::specs::Questions::then_ask, model::specs::Questions::ask))]
fn word_answer(d: Descriptor, words: usize, word: WordNumber) -> Result<(), Fault>
    ensures { number_by fault_number result ≡ word_answer words d.0 word.0 }
{
    descriptor_answer(d, words)?;
    answer(
        word.0 < words::descriptor::length_of(d),
        Fault::WordOutsideSegment,
    )
}

// The descriptor of a pointer's segment, where 11 to 15 have a yes.
#[tactic(auto, using(crate::proofs::TranslateLaws::law_11))]
pub fn translate(dbr: Dbr, memory: &[u64], p: Pointer) -> Result<Descriptor, Fault>
    requires { dbr.address + dbr.length ≤ length memory.now }
    ensures { translated (as_dbr dbr) memory.now (as_pointer p) result }
{
    let segment = p.segment.0;
    answer(segment < dbr.length, Fault::NoDescriptor)?;
    let at = dbr.address as usize + segment as usize;
    let d = Descriptor(memory[at]);
    word_answer(d, memory.len(), p.word)?;
    Ok(d)
}
