// The standard streams of a program: input in pieces, and a text or a refusal as output.
#![tactic(auto)]

ghost use Rattle.std.specs.Prelude.{◌≤◌, length, MatchResult};

use state::reply::Reply;
use std::fmt::Display;
use std::io::Read;

// What one read gave: how many bytes the buffer holds now, and whether the input has ended.
#[derive(Clone, Copy)]
pub struct Piece {
    pub size: usize,
    pub has_ended: bool,
}

// Standard input can't be read, which has been told on standard error; and how many bytes the buffer holds of what came before.
#[derive(Clone, Copy, PartialEq, Eq)]
pub struct InputFailed {
    pub size: usize,
}

// Says on standard error what is wrong with standard input. Where that can't be written either, nobody is told.
pub fn fail(rt: &impl Eprint, why: impl Display + Drop) {
    let _told = eprintln!(rt; "standard input: {why}");
}

// Reads on after the bytes that the buffer keeps. No room to read into is a failure, and not the end.
pub fn read_piece(
    rt: &(impl Input + Eprint),
    buffer: &mut [u8],
    kept: usize,
) -> Result<Piece, InputFailed>
    requires { kept ≤ length buffer.old }
    ensures { MatchResult result (λ piece. (kept ≤ piece.size) × (piece.size ≤ length buffer.new)) (λ failed. (kept ≤ failed.size) × (failed.size ≤ length buffer.new)) }
{
    if kept == buffer.len() {
        fail(rt, "there is no room to read into");
        return Err(InputFailed { size: kept });
    }
    match rt.reader().read(&mut buffer[kept..]) {
        Ok(count) => Ok(Piece {
            size: kept + count,
            has_ended: count == 0,
        }),
        Err(error) => {
            fail(rt, error);
            Err(InputFailed { size: kept })
        }
    }
}

// Reads until the buffer is full or the input ends, and says how many bytes it holds then. Each piece has a byte at least, or is the last.
pub fn read_whole(rt: &(impl Input + Eprint), bytes: &mut [u8]) -> Result<usize, InputFailed>
    ensures { MatchResult result (λ size. size ≤ length bytes.new) (λ failed. failed.size ≤ length bytes.new) }
{
    let mut size = 0;
    while size < bytes.len() {
        let piece = read_piece(rt, bytes, size)?;
        if piece.size == size {
            return Ok(size);
        }
        size = piece.size;
    }
    Ok(size)
}

// Whether all of it was written.
pub fn print(rt: &impl Print, text: &[u8], size: usize) -> bool
    requires { size ≤ length text.now }
{
    rt.write_all(&text[..size]).is_ok()
}

pub fn print_refusal(rt: &impl Print, number: u8) {
    let mut text = [0u8; 64];
    let size = endings::put_last_line(&mut text, 0, Reply::Refused(number), 0);
    print(rt, &text, size);
}
