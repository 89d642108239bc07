// The C library: a run and a step over a register record and a memory that the host lends, CALL's check over ones that are only read,
// an image run whole, a stored one converted, a table for who may do what, descriptors of the old benches, and an image's needs.
#![tactic(auto)]

ghost use Rattle.std.specs.Prelude.{◌≡◌};
ghost use Rattle.model.specs.Answers.{check_numbers};
ghost use Rattle.model.specs.Check.{check};
ghost use Rattle.model.specs.Bench as Bench;
ghost use Rattle.model.specs.Convert.{convert_call};
ghost use Rattle.model.specs.Brackets.{set_brackets};
ghost use Rattle.model.specs.Old.{from_old, to_old, convert_words};
ghost use Rattle.model.specs.Needs.{image_needs};
ghost use Rattle.host.specs.Record.{machine_of, delivery_of};
ghost use Rattle.checks.specs.View.{as_numbers};
ghost use Rattle.old.specs.View.{as_answer};
ghost use Rattle.sizing.specs.View.{as_needs};
ghost use Rattle.tables.specs.View.{as_rows, base};
ghost use Rattle.kuzhlemor.specs.Entry.{RunSays, StepSays};

use checks::Check;
use entry::Answer;
use host::record::Registers;
use old::word::Way;
use tables::row::Row;

#[unsafe(no_mangle)]
pub extern "C" fn kuzhlemor_run(
    registers: &mut Registers,
    memory: &mut [u64],
    budget: u32,
) -> Answer
    ensures { RunSays budget registers.old memory.old result registers.new memory.new }
{
    entry::call(registers, memory, budget, false)
}

// A single step answers as a run of that one step does, but for the pointer words of one that faults.
#[unsafe(no_mangle)]
pub extern "C" fn kuzhlemor_step(registers: &mut Registers, memory: &mut [u64]) -> Answer
    ensures { StepSays registers.old memory.old result registers.new memory.new }
{
    entry::call(registers, memory, 1, true)
}

// May a CALL go there? As if one stood at IPR; record and memory are only read.
#[unsafe(no_mangle)]
pub extern "C" fn kuzhlemor_may_call(
    registers: &Registers,
    memory: &[u64],
    ring: u8,
    segment: u16,
    word: u16,
) -> Check
    ensures { as_numbers result ≡ check_numbers (check (delivery_of registers.now) (machine_of registers.now memory.now) (record { ring = ring; segment = segment; word = word })) }
{
    checks::may_call(*registers, memory, ring, segment, word)
}

// An image and a text buffer, both as bytes, for the image's listing: the question's number negated, or the text's length.
#[unsafe(no_mangle)]
pub extern "C" fn kuzhlemor_bench(image: &[u8], text: &mut [u8]) -> i64
    ensures { (result ≡ (Bench.bench image.now text.old).answer) × (text.new ≡ (Bench.bench image.now text.old).buffer) }
{
    calls::signed(dosing::bench(image, text))
}

// A stored image, converted where it stands: the question's number negated, or the new image's length.
#[unsafe(no_mangle)]
pub extern "C" fn kuzhlemor_convert(image: &mut [u8]) -> i64
    ensures { (result ≡ (convert_call image.old).answer) × (image.new ≡ (convert_call image.old).buffer) }
{
    calls::signed(conversion::convert(image))
}

// A table's rows set brackets and flags of every descriptor, or are refused and change nothing: 0, or the question's number.
#[unsafe(no_mangle)]
pub extern "C" fn kuzhlemor_set_brackets(
    memory: &mut [u64],
    dbr_address: u32,
    dbr_length: u16,
    rows: &[Row],
) -> u32
    ensures { (result ≡ (set_brackets memory.old (base dbr_address dbr_length) (as_rows rows.now)).answer) × (memory.new ≡ (set_brackets memory.old (base dbr_address dbr_length) (as_rows rows.now)).memory) }
{
    match tables::set_brackets(memory, dbr_address, dbr_length, rows) {
        Ok(()) => 0,
        Err(error) => u32::from(error.number()),
    }
}

// Descriptors of the old benches made into today's where they stand, all or nothing: number and index of the first that fails.
#[unsafe(no_mangle)]
pub extern "C" fn kuzhlemor_from_old(words: &mut [u64]) -> old::Answer
    ensures { (as_answer result ≡ (convert_words from_old words.old).answer) × (words.new ≡ (convert_words from_old words.old).words) }
{
    old::Answer::from(old::convert_words(words, Way::FromOld))
}

// And back.
#[unsafe(no_mangle)]
pub extern "C" fn kuzhlemor_to_old(words: &mut [u64]) -> old::Answer
    ensures { (as_answer result ≡ (convert_words to_old words.old).answer) × (words.new ≡ (convert_words to_old words.old).words) }
{
    old::Answer::from(old::convert_words(words, Way::ToOld))
}

// What an image will need, worked out from its records: the number of the question with a no, or 0 and the five figures.
#[unsafe(no_mangle)]
pub extern "C" fn kuzhlemor_needs(image: &[u8]) -> sizing::Needs
    ensures { as_needs result ≡ image_needs image.now }
{
    sizing::needs_in(image)
}
