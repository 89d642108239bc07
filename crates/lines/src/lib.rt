// The line of a completed step.
#![tactic(auto)]

ghost use Rattle.std.specs.Prelude.{◌≡◌, ◌≤◌, ◌<◌, ◌+◌, length, take};
ghost use Rattle.model.specs.Listing.{step_line};
ghost use Rattle.words.specs.View.{as_pointer, PointerWithin};
ghost use Rattle.text.specs.Text.{placed, Put};
ghost use Rattle.lines.specs.Kept.{Kept};

use parts::{put_bytes, put_digit, put_pointer, put_short};
use words::pointer::Pointer;

// A step's number, its last digit, and how many digits stand before that.
#[derive(Clone, Copy)]
pub struct Number {
    pub value: u32,
    pub ones: u64,
    pub width: usize,
}

// A step's number, and into `tens` its digits without the last.
pub fn number_of(tens: &mut [u8; 10], value: u32) -> Number
    ensures { Kept tens.new result × (result.value ≡ value) }
{
    if value < 10 {
        return Number {
            value,
            ones: value as u64,
            width: 0,
        };
    }
    let width = text::put_decimal(tens, 0, value / 10);
    Number {
        value,
        ones: (value % 10) as u64,
        width,
    }
}

// The next number: nine of ten times only its last digit changes.
pub fn next(tens: &mut [u8; 10], n: Number) -> Number
    requires { Kept tens.old n × (n.value < 4294967295) }
    ensures { Kept tens.new result × (result.value ≡ n.value + 1) }
{
    let value = n.value + 1;
    if n.ones < 9 {
        return Number {
            value,
            ones: n.ones + 1,
            width: n.width,
        };
    }
    number_of(tens, value)
}

// The digits of a number without the last, and up to eight bytes more: eight at once are put sooner than some of them, and
// the rest of the line, at least ten bytes, covers those too many. The answer is how many are put.
fn put_tens(text: &mut [u8], at: usize, tens: &[u8; 10], width: usize) -> usize
    requires { (at + 10 ≤ length text.old) × (width ≤ 9) }
    ensures { (text.new ≡ placed at (take result tens.now) text.old) × (width ≤ result) × (result ≤ width + 8) × (result ≤ length tens.now) }
{
    put_bytes(text, at, &tens[..8]);
    if 8 < width {
        text[at + 8] = tens[8];
        return 9;
    }
    8
}

// A step's line from the last digit of its number on, which is the line of a step of that number.
fn put_last_digit(text: &mut [u8], at: usize, ones: u64, p: Pointer, pointers: u64) -> usize
    requires { (at + 27 ≤ length text.old) × (ones ≤ 9) × PointerWithin p × (pointers ≤ 64) }
    ensures { Put 22 at (step_line ones (record { ipr = as_pointer p; pointers = pointers })) text.old text.new result }
{
    let at_ring = put_digit(text, at, ones, b' ');
    let at_count = put_pointer(text, at_ring, p.ring, p.segment.0, p.word.0);
    put_short(text, at_count, pointers, b'\n')
}

// A completed step's number, IPR after it, and how many pointer words it read.
pub fn put_step_line(
    text: &mut [u8],
    at: usize,
    tens: &[u8; 10],
    n: Number,
    p: Pointer,
    pointers: u64,
) -> usize
    requires { (at + 64 ≤ length text.old) × Kept tens.now n × PointerWithin p × (pointers ≤ 64) }
    ensures { Put 64 at (step_line n.value (record { ipr = as_pointer p; pointers = pointers })) text.old text.new result }
{
    put_tens(text, at, tens, n.width);
    put_last_digit(text, at + n.width, n.ones, p, pointers)
}
