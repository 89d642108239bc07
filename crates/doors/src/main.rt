// The laptop's program for the list of doors: an image on standard input, the list on standard output.
#![tactic(auto)]

use host::record::Registers;

// There is room for a line of every segment.
fn print_listing(rt: &impl Print, registers: Registers, memory: &[u64]) {
    let mut text = [0u8; 131136];
    let size = doorways::put_listing(&mut text, registers, memory);
    streams::print(rt, &text, size);
}

// What the image itself is refused for comes first, then 1 to 4, then the list.
fn main(rt: HostRuntime) {
    let mut store = loading::empty_store();
    if let Some(start) = reading::image_on_input(&rt, &mut store) {
        print_listing(&rt, start.registers, &store[..start.words as usize]);
    }
}
