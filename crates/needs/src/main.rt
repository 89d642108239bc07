// The laptop's program for what an image will need: an image on standard input, its needs on standard output.
#![tactic(auto)]

ghost use Rattle.std.specs.Prelude.{[], ◌∷◌, ◌++◌, ◌≤◌, ◌+◌, length};
ghost use Rattle.model.specs.Listing.{decimal};
ghost use Rattle.model.specs.Needs.{need_line, needs_lines};
ghost use Rattle.sizing.specs.View.{as_needs};
ghost use Rattle.text.specs.Text.{Put};

use image::error::ImageError;
use reading::error::ReadError;
use sizing::Needs;

// A name with a space after it, and a number, as a line.
fn put_line(text: &mut [u8], at: usize, name: &[u8], v: u64) -> usize
    requires { (at + 30 ≤ length text.old) × (length name.now ≤ 9) }
    ensures { Put 30 at (name.now ++ (decimal v ++ 10 ∷ [])) text.old text.new result }
{
    let at_number = parts::put_bytes(text, at, name);
    parts::put_total(text, at_number, v)
}

fn put_figures(text: &mut [u8], needs: Needs) -> usize
    requires { 150 ≤ length text.old }
    ensures { Put 150 0 (need_line "memory" needs.memory ++ need_line "records" needs.records ++ need_line "budget" needs.budget ++ need_line "lines" needs.lines ++ need_line "pointers" needs.pointers) text.old text.new result }
{
    let at_records = put_line(text, 0, b"memory ", needs.memory);
    let at_budget = put_line(text, at_records, b"records ", needs.records);
    let at_lines = put_line(text, at_budget, b"budget ", needs.budget);
    let at_pointers = put_line(text, at_lines, b"lines ", needs.lines);
    put_line(text, at_pointers, b"pointers ", needs.pointers)
}

// The five figures, a line each, or what refuses the image.
fn put_needs(text: &mut [u8], needs: Needs) -> usize
    requires { 150 ≤ length text.old }
    ensures { Put 150 0 (needs_lines (as_needs needs)) text.old text.new result }
{
    if needs.number != 0 {
        return put_line(text, 0, b"refused ", needs.number);
    }
    put_figures(text, needs)
}

fn print_needs(rt: &impl Print, needs: Needs) {
    let mut text = [0u8; 150];
    let size = put_needs(&mut text, needs);
    streams::print(rt, &text, size);
}

// What the image on standard input will need, read in pieces of which no word is kept; none where it can't be read, which has been
// told.
fn needs_on_input(rt: &(impl Input + Eprint)) -> Option<Needs> {
    let mut set = loading::empty_set();
    match reading::read_image(rt, &mut set) {
        Ok(read) => match sizing::needs_of(read.start, read.length) {
            Ok(needs) => Some(needs),
            Err(error) => Some(sizing::refused_by(ImageError::Start(error))),
        },
        Err(ReadError::Refused(error)) => Some(sizing::refused_by(ImageError::Load(error))),
        Err(ReadError::InputFailed) => None,
    }
}

fn main(rt: HostRuntime) {
    if let Some(needs) = needs_on_input(&rt) {
        print_needs(&rt, needs);
    }
}
