// The opcodes that read and write their operand.
ghost use Rattle.std.specs.Prelude.{◌≡◌, ◌<◌, true, false, length, MatchResult};
ghost use Rattle.model.specs.Opcodes.{sum};
ghost use Rattle.model.specs.Registers as Registers;
ghost use Rattle.model.specs.Questions as Questions;
ghost use Rattle.model.specs.Step as Step;
ghost use Rattle.words.specs.View.{as_pointer};
ghost use Rattle.opcodes.specs.Table.{operation_result};
ghost use Rattle.questions.specs.Numbers.{fault_number};
ghost use Rattle.segments.specs.Translation.{as_dbr};
ghost use Rattle.state.specs.View.{Ready, DoesWithAnyPrs, DoesAnywhere};
ghost use Rattle.operations.specs.Rest.{sets_dbr};

use questions::Use;
use questions::fault::Fault;
use segments::translate::Dbr;
use state::{After, Core};
use words::descriptor::Descriptor;
use words::pointer::Pointer;

// LDA, ADA, SBA, ANA, ORA, XRA, CNT.
pub fn load(core: Core, code: Descriptor, memory: &[u64], opcode: u8, t: Pointer) -> After
    requires { Ready core memory.now }
    ensures { DoesWithAnyPrs core code memory.now (λ r. Step.load (operation_result opcode) r (as_pointer t)) result memory.now }
{
    match segments::access::read(Use::Read, core.dbr, memory, t) {
        Err(fault) => state::faulted_by(core, code, fault, t),
        Ok(read) => {
            let a = opcodes::arithmetic::result_of(opcode, core.a, read.word);
            state::completed(state::with_a(core, a), code)
        }
    }
}

// STA and SPP.
pub fn store(core: Core, code: Descriptor, memory: &mut [u64], t: Pointer, value: u64) -> After
    requires { Ready core memory.old }
    ensures { DoesWithAnyPrs core code memory.old (λ r. Step.store value r (as_pointer t)) result memory.new }
{
    let written = segments::access::write(core.dbr, memory, t, value);
    if let Err(fault) = written {
        return state::faulted_by(core, code, fault, t);
    }
    state::completed(core, code)
}

// AOS: 22, then 23, before it stores.
pub fn update(core: Core, code: Descriptor, memory: &mut [u64], t: Pointer) -> After
    requires { Ready core memory.old }
    ensures { DoesWithAnyPrs core code memory.old (λ r. Step.update (λ w. sum w 1) r (as_pointer t)) result memory.new }
{
    let operand = segments::access::read(Use::Read, core.dbr, memory, t);
    match operand {
        Err(fault) => state::faulted_by(core, code, fault, t),
        Ok(read) => {
            let value = opcodes::arithmetic::add(read.word, 1);
            store(core, code, memory, t, value)
        }
    }
}

// The DBR in LDBR's word.
#[tactic(auto, unfolding(model::specs::Registers::dbr_in, model::specs::Words::field))]
fn dbr_in(w: u64) -> Dbr
    ensures { (as_dbr result ≡ Registers.dbr_in w) × (result.address < 16777216) × (result.length < 8192) }
{
    Dbr {
        address: w % 16777216,
        length: (w >> 24) % 8192,
    }
}

// 34: is it within 4,096 words and within memory?
#[tactic(auto, unfolding(model::specs::Questions::dbr_fits))]
fn is_dbr(dbr: Dbr, words: usize) -> bool
    requires { (dbr.address < 16777216) × (dbr.length < 8192) }
    ensures { result ≡ Questions.dbr_fits words (as_dbr dbr) }
{
    (dbr.length <= 4096) & (dbr.address as usize + dbr.length as usize <= words)
}

// The DBR in LDBR's word or a frame's, where 34 has a yes in a memory of so many words.
pub fn dbr_answer(w: u64, words: usize) -> Result<Dbr, Fault>
    ensures same { MatchResult result (λ dbr. as_dbr dbr ≡ Registers.dbr_in w) (λ e. fault_number e ≡ 34) }
    ensures asked { MatchResult result (λ _. Questions.dbr_fits words (Registers.dbr_in w) ≡ true) (λ _. Questions.dbr_fits words (Registers.dbr_in w) ≡ false) }
{
    let dbr = dbr_in(w);
    questions::answer(is_dbr(dbr, words), Fault::BaseOutsideMemory)?;
    Ok(dbr)
}

// LDBR: 34 after 22.
pub fn load_dbr(core: Core, code: Descriptor, memory: &[u64], t: Pointer) -> After
    requires { Ready core memory.now }
    ensures { DoesWithAnyPrs core code memory.now (λ r. Step.load_dbr (length memory.now) r (as_pointer t)) result memory.now }
{
    match segments::access::read(Use::Read, core.dbr, memory, t) {
        Err(fault) => state::faulted_by(core, code, fault, t),
        Ok(read) => take_dbr(core, code, memory.len(), t, read.word),
    }
}

// DBR becomes the word's, 34 asked first.
fn take_dbr(core: Core, code: Descriptor, words: usize, t: Pointer, w: u64) -> After
    ensures { DoesAnywhere core code (sets_dbr words w (as_pointer t)) result }
{
    match dbr_answer(w, words) {
        Err(fault) => state::faulted_by(core, code, fault, t),
        Ok(dbr) => state::completed(state::with_dbr(core, dbr), code),
    }
}
