// The laptop's program for stored images: an old image on standard input, the new one on standard output.
#![tactic(auto)]

ghost use Rattle.std.specs.Prelude.{◌≡◌, ◌+◌, ◌≤◌, length, IfOk, MatchResult};
ghost use Rattle.convert.specs.Turn.{RoomLeft, TurnWithin, WithinAfter};

use crate::error::ConvertError;
use conversion::{ConvertOutcome, convert_piece};
use fields::rules::Rules;
use loading::Loading;
use streams::{InputFailed, Piece};

mod error;

// Of the bytes that the buffer holds those before `kept` are records that were loaded.
#[derive(Clone, Copy)]
struct Room {
    kept: usize,
    size: usize,
}

// What a piece came to.
#[derive(Clone, Copy)]
enum Progress {
    // The input goes on.
    Reads(Room),
    // So many bytes at the buffer's front are the new image.
    Ready(usize),
}

// The records that an image keeps take at most 114,755 bytes, fewer than 61 wait, and ST gains five.
fn empty_buffer() -> [u8; 524288]
    ensures { 524288 ≡ length result }
{
    [0; 524288]
}

// Where less than half of the buffer is free, records that later ones supersede are dropped.
fn with_room(buffer: &mut [u8], kept: usize, size: usize) -> Room
    requires { (kept ≤ size) × (size + 5 ≤ length buffer.old) }
    ensures { RoomLeft result buffer.old buffer.new }
{
    if size <= 262144 {
        return Room { kept, size };
    }
    let n = conversion::make_room(buffer, kept, size);
    Room {
        kept: n,
        size: n + (size - kept),
    }
}

// Reads on, but not into the buffer's last five bytes, which are for ST.
fn read_more(
    rt: &(impl Input + Eprint),
    buffer: &mut [u8],
    size: usize,
) -> Result<Piece, InputFailed>
    requires { size + 5 ≤ length buffer.old }
    ensures { MatchResult result (λ piece. (size ≤ piece.size) × (piece.size + 5 ≤ length buffer.new)) (λ failed. (size ≤ failed.size) × (failed.size + 5 ≤ length buffer.new)) }
{
    let limit = buffer.len() - 5;
    streams::read_piece(rt, &mut buffer[..limit], size)
}

// One piece more, read and converted.
#[tactic(auto, using(crate::proofs::TurnLaws::pieces))]
fn convert_once(
    rt: &(impl Input + Eprint),
    loading: &mut Loading,
    room: Room,
    store: &mut [u64],
    buffer: &mut [u8],
) -> Result<Progress, ConvertError>
    requires { TurnWithin loading.old room store.old buffer.old }
    ensures { WithinAfter result loading.new store.new buffer.new }
{
    let piece = read_more(rt, buffer, room.size)?;
    let size = piece.size;
    let outcome = convert_piece(loading, store, buffer, room.kept, size, piece.has_ended)?;
    match outcome {
        ConvertOutcome::More(kept) => Ok(Progress::Reads(with_room(buffer, kept, size))),
        ConvertOutcome::Ready(length) => Ok(Progress::Ready(length)),
    }
}

// Reads and converts until an image is whole or refused; how long the new one is.
fn convert_input(rt: &(impl Input + Eprint), buffer: &mut [u8]) -> Result<usize, ConvertError>
    requires { 5 ≤ length buffer.old }
    ensures { IfOk result (λ n. n ≤ length buffer.new) }
{
    let mut store = loading::empty_store();
    let mut loading = loading::nothing_loaded(Rules::Stored);
    let mut room = Room { kept: 0, size: 0 };
    // A proved loop has to end, and nothing says that an input does: no input has so many pieces.
    for _ in 0..u64::MAX {
        let progress = convert_once(rt, &mut loading, room, &mut store, buffer)?;
        match progress {
            Progress::Reads(next) => room = next,
            Progress::Ready(length) => return Ok(length),
        }
    }
    Err(ConvertError::InputFailed)
}

fn main(rt: HostRuntime) {
    let mut buffer = empty_buffer();
    match convert_input(&rt, &mut buffer) {
        Ok(length) => {
            streams::print(&rt, &buffer, length);
        }
        Err(ConvertError::Refused(error)) => streams::print_refusal(&rt, error.number()),
        Err(ConvertError::InputFailed) => {}
    }
}
