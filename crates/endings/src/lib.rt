// The line with which a listing ends.
#![tactic(auto)]

ghost use Rattle.std.specs.Prelude.{[], ◌∷◌, ◌++◌, ◌≤◌, ◌+◌, length};
ghost use Rattle.model.specs.Listing.{decimal, last_line};
ghost use Rattle.model.specs.Run.{fault};
ghost use Rattle.words.specs.View.{as_pointer, PointerWithin};
ghost use Rattle.state.specs.Reply.{as_reply, ReplyWithin};
ghost use Rattle.text.specs.Text.{Put};

use parts::{put_bytes, put_named, put_number, put_pointer, put_short, put_total};
use state::reply::Reply;
use words::pointer::Pointer;

// A name with a space after it, the count of completed steps, and the total of their pointer words.
fn put_counted(text: &mut [u8], at: usize, name: &[u8], count: u32, total: u64) -> usize
    requires { (at + 40 ≤ length text.old) × (length name.now ≤ 8) }
    ensures { Put 40 at (name.now ++ ((decimal count ++ 32 ∷ []) ++ (decimal total ++ 10 ∷ []))) text.old text.new result }
{
    let at_total = put_named(text, at, name, count, b' ');
    put_total(text, at_total, total)
}

// A fault's number, the count of completed steps, the pointer that faulted, and the total of the steps' pointer words.
fn put_fault_line(text: &mut [u8], at: usize, n: u8, count: u32, t: Pointer, total: u64) -> usize
    requires { (at + 64 ≤ length text.old) × PointerWithin t }
    ensures { Put 64 at (last_line (fault n count (as_pointer t)) total) text.old text.new result }
{
    let at_number = put_bytes(text, at, b"fault ");
    let at_count = put_short(text, at_number, n as u64, b' ');
    let at_ring = put_number(text, at_count, count, b' ');
    let at_total = put_pointer(text, at_ring, t.ring, t.segment.0, t.word.0);
    put_total(text, at_total, total)
}

// The reply of a run and the total of its pointer words, which end its listing; a refused run has none.
pub fn put_last_line(text: &mut [u8], at: usize, reply: Reply, total: u64) -> usize
    requires { (at + 64 ≤ length text.old) × ReplyWithin reply }
    ensures { Put 64 at (last_line (as_reply reply) total) text.old text.new result }
{
    match reply {
        Reply::Refused(n) => put_named(text, at, b"refused ", n as u32, b'\n'),
        Reply::Spent(count) => put_counted(text, at, b"spent ", count, total),
        Reply::Halted(count) => put_counted(text, at, b"halted ", count, total),
        Reply::Fault(n, count, t) => put_fault_line(text, at, n, count, t, total),
    }
}
