// A verdict as a line.
ghost use Rattle.std.specs.Prelude.{◌+◌, ◌≤◌, length};
ghost use Rattle.model.specs.Check.{fault};
ghost use Rattle.model.specs.Listing.{check_line};
ghost use Rattle.words.specs.View.{as_pointer, PointerWithin};
ghost use Rattle.text.specs.Text.{Put};
ghost use Rattle.checks.specs.View.{as_check, VerdictWithin};

use crate::Verdict;
use parts::{put_digit, put_named, put_short};
use words::pointer::Pointer;

// A fault's number and the pointer that faulted.
fn put_fault(text: &mut [u8], at: usize, n: u8, t: Pointer) -> usize
    requires { (at + 40 ≤ length text.old) × PointerWithin t }
    ensures { Put 40 at (check_line (fault n (as_pointer t))) text.old text.new result }
{
    let at_ring = put_named(text, at, b"fault ", n as u32, 32);
    let at_segment = put_digit(text, at_ring, t.ring, 32);
    let at_word = put_short(text, at_segment, t.segment.0, 32);
    put_short(text, at_word, t.word.0, 10)
}

pub fn put_check(text: &mut [u8], at: usize, verdict: Verdict) -> usize
    requires { (at + 40 ≤ length text.old) × VerdictWithin verdict }
    ensures { Put 40 at (check_line (as_check verdict)) text.old text.new result }
{
    match verdict {
        Verdict::Refused(n) => put_named(text, at, b"refused ", n as u32, 10),
        Verdict::Fault(n, t) => put_fault(text, at, n, t),
        Verdict::Passes(ring) => put_named(text, at, b"passes ", ring as u32, 10),
    }
}
