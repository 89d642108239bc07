// The uses of a segment, the one way to it: 11 to 15, the questions of the use, and the one access that follows a yes.
ghost use Rattle.std.specs.Prelude.{◌≡◌, ◌+◌, ◌≤◌, length};
ghost use Rattle.model.specs.Questions.{write_questions};
ghost use Rattle.words.specs.View.{as_pointer};
ghost use Rattle.questions.specs.Numbers.{fault_number, number_by};
ghost use Rattle.questions.specs.Use.{questions_of};
ghost use Rattle.segments.specs.Translation.{as_dbr, looked, accessed, Writes};

use crate::translate::Dbr;
use questions::Use;
use questions::fault::Fault;
use words::descriptor::Descriptor;
use words::pointer::Pointer;

// A word with the descriptor that it was read through.
#[derive(Clone, Copy)]
pub struct ReadWord {
    pub descriptor: Descriptor,
    pub word: u64,
}

// A look at the descriptor, by the instruction at `ipr`.
#[tactic(auto, using(crate::proofs::UseLaws::translate_refuses))]
pub fn look(
    by: Use,
    dbr: Dbr,
    memory: &[u64],
    ipr: Pointer,
    t: Pointer,
) -> Result<Descriptor, Fault>
    requires { dbr.address + dbr.length ≤ length memory.now }
    ensures { looked (as_dbr dbr) memory.now (as_pointer t) (questions_of by (as_pointer ipr) (as_pointer t)) result }
{
    let d = crate::translate::translate(dbr, memory, t)?;
    questions::use_answer(by, ipr, t, d)?;
    Ok(d)
}

// A word for a reader: a fetch, a pointer word or an operand.
pub fn read(by: Use, dbr: Dbr, memory: &[u64], t: Pointer) -> Result<ReadWord, Fault>
    requires { dbr.address + dbr.length ≤ length memory.now }
    ensures { accessed (as_dbr dbr) memory.now (as_pointer t) (questions_of by (as_pointer t) (as_pointer t)) result }
{
    let descriptor = look(by, dbr, memory, t, t)?;
    let word = crate::segment::read(memory, descriptor, t.word);
    Ok(ReadWord { descriptor, word })
}

// An operand becomes `value`.
pub fn write(dbr: Dbr, memory: &mut [u64], t: Pointer, value: u64) -> Result<(), Fault>
    requires { dbr.address + dbr.length ≤ length memory.old }
    ensures { Writes (as_dbr dbr) memory.old (as_pointer t) (write_questions (as_pointer t)) value (number_by fault_number result) memory.new }
{
    let d = look(Use::Write, dbr, memory, t, t)?;
    crate::segment::write(memory, d, t.word, value);
    Ok(())
}
