// A door by its segment's descriptor: what makes it one, and its line.
ghost use Rattle.std.specs.Prelude.{◌≡◌, true, ◌+◌, ◌-◌, ◌≤◌, ◌<◌, min, length};
ghost use Rattle.model.specs.Words.{descriptor_in};
ghost use Rattle.model.specs.Doors.{leads_down, door_line};
ghost use Rattle.text.specs.Text.{Put};
ghost use Rattle.doorways.specs.Door.{is_door_by, door_by};

use parts::{put_digit, put_named, put_short};
use segments::translate::descriptor_answer;
use words::descriptor::{Descriptor, gate_of, is_execute_on, length_of, r2_of, r3_of};

// E on, a word that is a gate, and a ring in the gate extension.
fn leads_down(d: Descriptor) -> bool
    ensures { result ≡ leads_down (descriptor_in d.0) }
{
    is_execute_on(d) & ((0 < gate_of(d)) & ((0 < length_of(d)) & (r2_of(d) < r3_of(d))))
}

// 12 to 14 in a memory of so many words, and then that.
pub fn is_door(d: Descriptor, words: usize) -> bool
    ensures { result ≡ is_door_by words d.0 }
{
    match descriptor_answer(d, words) {
        Ok(()) => leads_down(d),
        Err(_fault) => false,
    }
}

// The last word that is a gate: below GATE, and in the segment.
fn last_gate(d: Descriptor) -> u64
    requires { leads_down (descriptor_in d.0) ≡ true }
    ensures { (result ≡ min (descriptor_in d.0).gate (descriptor_in d.0).length - 1) × (result < 65536) }
{
    let gate = gate_of(d);
    let length = length_of(d);
    if gate <= length {
        return gate - 1;
    }
    length - 1
}

// A door's line.
pub fn put_door(text: &mut [u8], at: usize, segment: usize, d: Descriptor) -> usize
    requires { (at + 32 ≤ length text.old) × (segment ≤ 4095) × (leads_down (descriptor_in d.0) ≡ true) }
    ensures { Put 32 at (door_line (door_by segment (descriptor_in d.0))) text.old text.new result }
{
    let new = r2_of(d);
    let at_last = put_named(text, at, b"door ", segment as u32, 32);
    let at_from = put_short(text, at_last, last_gate(d), 32);
    let at_to = put_digit(text, at_from, new + 1, 32);
    let at_new = put_digit(text, at_to, r3_of(d), 32);
    put_digit(text, at_new, new, 10)
}
