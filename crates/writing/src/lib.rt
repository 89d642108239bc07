// An image of registers and memory, written into a text.
#![tactic(auto)]

ghost use Rattle.std.specs.Prelude.{◌≡◌, ◌≤◌, ◌+◌, ◌*◌, length};
ghost use Rattle.model.specs.Write.{written_image};
ghost use Rattle.host.specs.Record.{machine_of, delivery_of};
ghost use Rattle.text.specs.Text.{placed};

use crate::memory::put_words;
use crate::number::put_marked;
use crate::start::put_start;
use host::record::Registers;

mod memory;
pub mod number;
mod start;

// ME, ST, a WD for each word that isn't zero, and RN, from the front of the text; the answer is how many bytes they have.
pub fn put_image(text: &mut [u8], registers: Registers, memory: &[u64], budget: u32) -> usize
    requires { 78 + 14 * length memory.now ≤ length text.old }
    ensures { (text.new ≡ placed 0 (written_image (delivery_of registers) (machine_of registers memory.now) budget) text.old) × (result ≡ length (written_image (delivery_of registers) (machine_of registers memory.now) budget)) × (result ≤ length text.new) }
{
    let at_start = put_marked(text, 0, b"ME", memory.len() as u64);
    let at_words = put_start(text, at_start, registers);
    let at_run = put_words(text, at_words, memory);
    put_marked(text, at_run, b"RN", budget as u64)
}
