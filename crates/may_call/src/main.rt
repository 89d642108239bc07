// The laptop's program for CALL's check: a pointer and an image on standard input, what a call there would do on standard output.
#![tactic(auto)]

ghost use Rattle.checks.specs.View.{VerdictWithin};

use checks::Verdict;
use fields::number::number_2;

fn print_verdict(rt: &impl Print, verdict: Verdict)
    requires { VerdictWithin verdict }
{
    let mut text = [0u8; 64];
    let size = checks::line::put_check(&mut text, 0, verdict);
    streams::print(rt, &text, size);
}

// What the image itself is refused for comes first, then the check.
fn check_image(rt: &(impl Input + Print + Eprint), ring: u8, segment: u16, word: u16) {
    let mut store = loading::empty_store();
    if let Some(start) = reading::image_on_input(rt, &mut store) {
        let memory = &store[..start.words as usize];
        print_verdict(
            rt,
            checks::ask(start.registers, memory, ring, segment, word),
        );
    }
}

// RING, SEGNO and WORDNO, in five bytes, each high byte first; then the image.
fn main(rt: HostRuntime) {
    let mut bytes = [0u8; 5];
    let Ok(size) = streams::read_whole(&rt, &mut bytes) else {
        return;
    };
    if size < 5 {
        streams::print_refusal(&rt, 41);
        return;
    }
    check_image(&rt, bytes[0], number_2(&bytes, 1), number_2(&bytes, 3));
}
