// The registers and what faults do, as an ST record.
ghost use Rattle.std.specs.Prelude.{◌++◌, ◌≤◌, ◌+◌, length};
ghost use Rattle.model.specs.Listing.{ascii};
ghost use Rattle.model.specs.Write.{bytes, pointer_bytes, pointers_bytes, ST_record};
ghost use Rattle.words.specs.View.{as_pointer};
ghost use Rattle.state.specs.View.{as_pointers};
ghost use Rattle.host.specs.Record.{registers_of, delivery_of};
ghost use Rattle.text.specs.Text.{Put};

use crate::number::put_number;
use host::record::{DescriptorBase, Registers};
use words::pointer::Pointer;

// Three numbers of one byte, two and two: a pointer, or the switch and its segments.
fn put_three(text: &mut [u8], at: usize, first: u64, second: u64, third: u64) -> usize
    requires { at + 5 ≤ length text.old }
    ensures { Put 5 at (bytes 1 first ++ bytes 2 second ++ bytes 2 third) text.old text.new result }
{
    let at_second = put_number(text, at, 1, first);
    let at_third = put_number(text, at_second, 2, second);
    put_number(text, at_third, 2, third)
}

// RING, SEGNO and WORDNO.
fn put_pointer(text: &mut [u8], at: usize, p: Pointer) -> usize
    requires { at + 5 ≤ length text.old }
    ensures { Put 5 at (pointer_bytes (as_pointer p)) text.old text.new result }
{
    put_three(text, at, p.ring, p.segment.0, p.word.0)
}

// PR0 to PR7.
fn put_prs(text: &mut [u8], at: usize, prs: &[u16; 24]) -> usize
    requires { at + 40 ≤ length text.old }
    ensures { Put 40 at (pointers_bytes (as_pointers prs.now)) text.old text.new result }
{
    let mut next = at;
    for k in 0..8 {
        next = put_pointer(text, next, state::prs::pr(prs, k));
    }
    next
}

// ST's mark, A and DBR.
fn put_base(text: &mut [u8], at: usize, a: u64, dbr: DescriptorBase) -> usize
    requires { at + 16 ≤ length text.old }
    ensures { Put 16 at (ascii "ST" ++ bytes 8 a ++ bytes 4 dbr.address ++ bytes 2 dbr.length) text.old text.new result }
{
    let at_a = parts::put_bytes(text, at, b"ST");
    let at_address = put_number(text, at_a, 8, a);
    let at_length = put_number(text, at_address, 4, dbr.address as u64);
    put_number(text, at_length, 2, dbr.length as u64)
}

// ST: A, DBR, IPR, the PRs, then the switch, the save segment and the handler segment.
pub fn put_start(text: &mut [u8], at: usize, registers: Registers) -> usize
    requires { at + 66 ≤ length text.old }
    ensures { Put 66 at (ST_record (registers_of registers) (delivery_of registers)) text.old text.new result }
{
    let at_ipr = put_base(text, at, registers.a, registers.dbr);
    let at_prs = put_pointer(text, at_ipr, Pointer::from(registers.ipr));
    let prs = registers.prs;
    let at_delivery = put_prs(text, at_prs, &prs);
    let d = registers.delivery;
    put_three(
        text,
        at_delivery,
        d.switch as u64,
        d.save as u64,
        d.handler as u64,
    )
}
