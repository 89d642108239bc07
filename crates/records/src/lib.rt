// One record, at the front of the bytes: 41 to 44 and 51, and what it loads.
#![tactic(auto)]

ghost use Rattle.std.specs.Prelude.{◌≡◌, ◌≤◌, ◌<◌, length};
ghost use Rattle.std.proofs.Math.Option.{some};
ghost use Rattle.model.specs.Image as Image;
ghost use Rattle.fields.specs.Mark.{as_mark, size_of};
ghost use Rattle.fields.specs.Rules.{rules_of};
ghost use Rattle.loading.specs.Record.{RecordedAs, RecordedByItself, RecordedWithAnyMemory};
ghost use Rattle.loading.specs.View.{LoadingWithin};

use fields::mark::{Mark, mark_of, size_of, start_size};
use fields::number::number_4;
use fields::registers::registers_at;
use loading::error::LoadError;
use loading::word::load_word;
use loading::{Loading, Outcome, Start};

// ME: 42 for a second one, 43, and so many words of memory, which are zeros already.
#[tactic(auto, using(crate::proofs::RecordLaws::memory_loaded))]
fn load_memory(loading: &mut Loading, bytes: &[u8]) -> Result<Outcome, LoadError>
    requires { (Image.mark_of bytes.now ≡ some Image.ME) × (6 ≤ length bytes.now) }
    ensures { RecordedByItself loading.old bytes.now result loading.new }
{
    if loading.words.is_some() {
        return Err(LoadError::OutOfPlace);
    }
    let words = number_4(bytes, 2);
    if words > 8192 {
        return Err(LoadError::MemoryTooLarge);
    }
    loading.words = Some(words);
    Ok(Outcome::Next(6))
}

// ST: 42 before ME and for a second one, and the registers, of as many bytes as the rules give it.
#[tactic(auto, using(crate::proofs::RecordLaws::start_loaded))]
fn load_start(loading: &mut Loading, bytes: &[u8]) -> Result<Outcome, LoadError>
    requires { (Image.mark_of bytes.now ≡ some Image.ST) × (Image.start_size (rules_of loading.old.rules) ≤ length bytes.now) }
    ensures { RecordedByItself loading.old bytes.now result loading.new }
{
    if loading.words.is_none() | loading.registers.is_some() {
        return Err(LoadError::OutOfPlace);
    }
    let size = start_size(loading.rules);
    let registers = registers_at(&bytes[..size], loading.rules);
    loading.registers = Some(registers);
    Ok(Outcome::Next(size))
}

// RN: 42 before ME or ST and where a byte follows, and the budget once the bytes are ended.
#[tactic(auto, using(crate::proofs::RecordLaws::run_loaded))]
fn load_run(loading: &Loading, bytes: &[u8], ended: bool) -> Result<Outcome, LoadError>
    requires { (Image.mark_of bytes.now ≡ some Image.RN) × (6 ≤ length bytes.now) }
    ensures { RecordedWithAnyMemory loading.now bytes.now ended result loading.now }
{
    let Some(words) = loading.words else {
        return Err(LoadError::OutOfPlace);
    };
    let Some(registers) = loading.registers else {
        return Err(LoadError::OutOfPlace);
    };
    if bytes.len() > 6 {
        return Err(LoadError::OutOfPlace);
    }
    if !ended {
        return Ok(Outcome::Waits);
    }
    let budget = number_4(bytes, 2);
    Ok(Outcome::Ready(Start {
        words,
        registers,
        budget,
    }))
}

// No whole record: 42 for no bytes at all and 41 for some, once they are ended.
#[tactic(auto, using(crate::proofs::PartLaws::parts, crate::proofs::RecordLaws::waits))]
fn load_part(
    loading: &Loading,
    mark: Option<Mark>,
    bytes: &[u8],
    ended: bool,
) -> Result<Outcome, LoadError>
    requires { (as_mark mark ≡ Image.mark_of bytes.now) × (length bytes.now < size_of (rules_of loading.now.rules) mark) }
    ensures { RecordedWithAnyMemory loading.now bytes.now ended result loading.now }
{
    if !ended {
        return Ok(Outcome::Waits);
    }
    if bytes.len() == 0 {
        return Err(LoadError::OutOfPlace);
    }
    Err(LoadError::CutShort)
}

// `ended`: no bytes come after these.
#[tactic(auto, using(crate::proofs::PartLaws::whole_records))]
pub fn load_record(
    loading: &mut Loading,
    store: &mut [u64],
    bytes: &[u8],
    ended: bool,
) -> Result<Outcome, LoadError>
    requires { LoadingWithin loading.old store.old }
    ensures { RecordedAs loading.old store.old bytes.now ended result loading.new store.new }
{
    let mark = mark_of(bytes);
    if bytes.len() < size_of(mark, loading.rules) {
        return load_part(loading, mark, bytes, ended);
    }
    match mark {
        Some(Mark::Memory) => load_memory(loading, bytes),
        Some(Mark::Start) => load_start(loading, bytes),
        Some(Mark::Word) => load_word(loading, store, bytes),
        Some(Mark::Run) => load_run(loading, bytes, ended),
        None => Err(LoadError::CutShort),
    }
}
