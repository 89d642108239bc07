// A fault delivered: the registers at the fault as thirteen words of the save segment.
#![tactic(auto)]

ghost use Rattle.std.specs.Prelude.{◌≡◌, ◌+◌, ◌*◌, ◌<◌, ◌≤◌, length, get_or};
ghost use Rattle.model.specs.Deliver.{frame, with_words};
ghost use Rattle.words.specs.View.{as_pointer, PointerWithin};
ghost use Rattle.state.specs.View.{as_registers, as_machine, as_delivery, Ready};
ghost use Rattle.frames.specs.Frame.{Savable, saves, Delivers};

use questions::Use;
use segments::translate::Dbr;
use state::{Core, Delivery};
use words::descriptor::Descriptor;
use words::pointer::{Pointer, SegmentNumber, WordNumber};

// The save segment's descriptor, where a fault is delivered: switch on, 11 to 14, 15 of a thirteenth word, and W on. 23 is asked for
// ring 0, which is in every write bracket, so that no ring is refused.
fn save_segment(delivery: Delivery, core: Core, memory: &[u64]) -> Option<Descriptor>
    requires { Ready core memory.now }
    ensures { saves (as_delivery delivery) core memory.now result }
{
    if delivery.switch != 1 {
        return None;
    }
    let last = Pointer {
        ring: 0,
        segment: SegmentNumber(u64::from(delivery.save)),
        word: WordNumber(12),
    };
    segments::access::look(Use::Write, core.dbr, memory, last, last).ok()
}

// DBR in LDBR's layout.
fn dbr_word(dbr: Dbr) -> u64
    requires { (dbr.address ≤ 16777215) × (dbr.length ≤ 4096) }
    ensures { result ≡ dbr.address + 16777216 * dbr.length }
{
    dbr.address + 16777216 * dbr.length
}

// A word of the frame.
#[tactic(auto, unfolding(model::specs::Deliver::frame, model::specs::Registers::dbr_word))]
fn frame_word(core: Core, prs: &[u16; 24], number: u8, t: Pointer, i: usize) -> u64
    requires { (i < 13) × Savable core prs.now × PointerWithin t }
    ensures { result ≡ get_or (frame number (as_pointer t) (as_registers core prs.now)) i 0 }
{
    match i {
        0 => u64::from(number),
        1 => words::pointer::encode(t),
        2 => core.a,
        3 => dbr_word(core.dbr),
        4 => words::pointer::encode(core.ipr),
        _ => words::pointer::encode(state::prs::pr(prs, i - 5)),
    }
}

// The frame becomes the words of memory from `start` on.
fn write_frame(
    core: Core,
    prs: &[u16; 24],
    memory: &mut [u64],
    start: usize,
    number: u8,
    t: Pointer,
)
    requires { (start + 13 ≤ length memory.old) × Savable core prs.now × PointerWithin t }
    ensures { memory.new ≡ with_words start (frame number (as_pointer t) (as_registers core prs.now)) memory.old }
{
    for i in 0..13 {
        memory[start + i] = frame_word(core, prs, number, t, i);
    }
}

// Where it is not delivered, nothing is changed.
pub fn deliver(
    delivery: Delivery,
    core: Core,
    prs: &[u16; 24],
    memory: &mut [u64],
    number: u8,
    t: Pointer,
) -> bool
    requires { Ready core memory.old × Savable core prs.now × PointerWithin t }
    ensures { Delivers (as_delivery delivery) number (as_pointer t) (as_machine core prs.now memory.old) result memory.new }
{
    match save_segment(delivery, core, memory) {
        None => false,
        Some(d) => {
            let start = words::descriptor::address_of(d) as usize;
            write_frame(core, prs, memory, start, number, t);
            true
        }
    }
}
