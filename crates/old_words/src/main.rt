// The laptop's program for descriptors of the old benches: the way and a segment of words on standard input, the words that they become
// on standard output.
#![tactic(auto)]

ghost use Rattle.std.specs.Prelude.{◌≡◌, ◌≤◌, ◌<◌, ◌+◌, ◌*◌, length, [], ◌∷◌};
ghost use Rattle.model.specs.Listing.{ascii, decimal, line};
ghost use Rattle.model.specs.Old.{words_at, words_bytes, converted_text, words_text};
ghost use Rattle.old.specs.View.{as_way, answer_of};
ghost use Rattle.text.specs.Text.{Put};

use fields::number::number_8;
use old::WordError;
use old::word::Way;
use writing::number::put_number;

// As many words as there is room for, each of 8 bytes.
fn read_words(words: &mut [u64], bytes: &[u8])
    requires { 8 * length words.old ≤ length bytes.now }
    ensures { words.new ≡ words_at (length words.old) 0 bytes.now }
{
    for (i, word) in words.iter_mut().enumerate() {
        *word = number_8(bytes, 8 * i);
    }
}

fn put_words(text: &mut [u8], words: &[u64]) -> usize
    requires { 8 * length words.now ≤ length text.old }
    ensures { Put (8 * length words.now) 0 (words_bytes words.now) text.old text.new result }
{
    for (i, word) in words.iter().enumerate() {
        put_number(text, 8 * i, 8, *word);
    }
    8 * words.len()
}

fn put_refusal(text: &mut [u8], number: u64, index: u64) -> usize
    requires { (30 ≤ length text.old) × (number < 65536) × (index < 65536) }
    ensures { Put 30 0 (line (ascii "refused" ∷ decimal number ∷ decimal index ∷ [])) text.old text.new result }
{
    let at_number = parts::put_bytes(text, 0, b"refused ");
    let at_index = parts::put_short(text, at_number, number, 32);
    parts::put_short(text, at_index, index, 10)
}

// What a conversion answers and leaves.
fn put_answer(text: &mut [u8], words: &[u64], answer: Result<(), WordError>) -> usize
    requires { (length words.now ≤ 4096) × ((answer_of answer).index < 65536) × (32768 ≤ length text.old) }
    ensures { Put 32768 0 (converted_text (record { answer = answer_of answer; words = words.now })) text.old text.new result }
{
    match answer {
        Ok(()) => put_words(text, words),
        Err(error) => put_refusal(text, u64::from(error.form.number()), error.index as u64),
    }
}

// The words that the bytes hold, converted, or what refuses them.
fn put_converted(text: &mut [u8], words: &mut [u64], bytes: &[u8], way: Way) -> usize
    requires { (8 * length words.old ≡ length bytes.now) × (length words.old ≤ 4096) × (32768 ≤ length text.old) }
    ensures { Put 32768 0 (words_text (as_way way) bytes.now) text.old text.new result }
{
    read_words(words, bytes);
    let x = old::convert_words(words, way);
    put_answer(text, words, x)
}

fn print_converted(rt: &(impl Print + Eprint), bytes: &[u8], way: Way)
    requires { length bytes.now ≤ 32768 }
{
    let count = bytes.len() / 8;
    if 8 * count != bytes.len() {
        streams::fail(rt, "the last word is cut short");
        return;
    }
    let mut words = [0u64; 4096];
    let mut text = [0u8; 32768];
    let size = put_converted(&mut text, &mut words[..count], bytes, way);
    streams::print(rt, &text, size);
}

// Reads the words; with one byte more than fits there are too many.
fn convert_input(rt: &(impl Input + Print + Eprint), way: Way) {
    let mut bytes = [0u8; 32769];
    let Ok(size) = streams::read_whole(rt, &mut bytes) else {
        return;
    };
    if size > 32768 {
        streams::fail(rt, "more than 4096 words");
        return;
    }
    print_converted(rt, &bytes[..size], way);
}

// The way in one byte, 0 from old to today's and any other back; then at most 4,096 words, of 8 bytes each, high byte first.
fn main(rt: HostRuntime) {
    let mut byte = [0u8; 1];
    let Ok(size) = streams::read_whole(&rt, &mut byte) else {
        return;
    };
    if size < 1 {
        streams::fail(&rt, "it is empty");
        return;
    }
    let way = if byte[0] == 0 {
        Way::FromOld
    } else {
        Way::ToOld
    };
    convert_input(&rt, way);
}
