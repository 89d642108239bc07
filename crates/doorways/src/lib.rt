// The list of doors: the segments whose gates lead into a lower ring, by the descriptors of a start, a line each.
#![tactic(auto)]

ghost use Rattle.std.specs.Prelude.{◌≡◌, ℕ, ◌+◌, ◌≤◌, length};
ghost use Rattle.model.specs.Image.{checked};
ghost use Rattle.model.specs.Doors.{doors, door_lines, faults_line, image_doors};
ghost use Rattle.state.specs.View.{as_delivery};
ghost use Rattle.host.specs.Record.{machine_of, delivery_of};
ghost use Rattle.text.specs.Text.{Put};
ghost use Rattle.doorways.specs.Door.{doors_by};

use crate::door::{is_door, put_door};
use host::record::Registers;
use parts::{put_named, put_short};
use state::Delivery;
use words::descriptor::Descriptor;

mod door;

// The place after the lines so far, and how many they are.
#[derive(Clone, Copy)]
struct Lines {
    next: usize,
    count: u32,
}

// A segment's line, if it is a door.
fn put_segment(text: &mut [u8], lines: Lines, segment: usize, d: Descriptor, words: usize) -> Lines
    requires { (lines.next + 32 ≤ length text.old) × (segment ≤ 4095) × (lines.count ≤ 4095) }
    ensures { Put 32 lines.next (door_lines (doors_by words segment d.0)) text.old text.new result.next × (result.count ≡ lines.count + length (doors_by words segment d.0)) }
{
    if is_door(d, words) {
        return Lines {
            next: put_door(text, lines.next, segment, d),
            count: lines.count + 1,
        };
    }
    lines
}

// The line of each door, in the order of segments.
fn put_doors(text: &mut [u8], registers: Registers, memory: &[u64]) -> Lines
    requires { (131072 ≤ length text.old) × (registers.dbr.length ≤ 4096) × (registers.dbr.address + registers.dbr.length ≤ length memory.now) }
    ensures { Put 131072 0 (door_lines (doors (machine_of registers memory.now))) text.old text.new result.next × (result.count ≡ length (doors (machine_of registers memory.now))) }
{
    let mut lines = Lines { next: 0, count: 0 };
    for segment in 0..usize::from(registers.dbr.length) {
        let at = registers.dbr.address as usize + segment;
        lines = put_segment(text, lines, segment, Descriptor(memory[at]), memory.len());
    }
    lines
}

// Where a fault leads, with the switch on.
fn put_faults(text: &mut [u8], at: usize, delivery: Delivery) -> usize
    requires { at + 32 ≤ length text.old }
    ensures { Put 32 at (faults_line (as_delivery delivery)) text.old text.new result }
{
    if delivery.switch == 1 {
        let at_handler = put_named(text, at, b"faults ", delivery.save as u32, 32);
        return put_short(text, at_handler, delivery.handler as u64, 10);
    }
    at
}

// 1 to 4, then the list: what the program prints of an image with this start, whatever its budget. There is room for 4,096 lines
// of 32 bytes, and two more.
pub fn put_listing(text: &mut [u8], registers: Registers, memory: &[u64]) -> usize
    requires { 131136 ≤ length text.old }
    ensures { (budget : ℕ) → Put 131136 0 (image_doors (checked (delivery_of registers) (machine_of registers memory.now) budget)) text.old text.new result }
{
    if let Err(e) = host::start::record_answer(registers, memory) {
        return put_named(text, 0, b"refused ", e.number() as u32, 10);
    }
    let lines = put_doors(text, registers, memory);
    let at_count = put_faults(text, lines.next, registers.delivery);
    put_named(text, at_count, b"doors ", lines.count, 10)
}
