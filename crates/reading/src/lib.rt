// An image read from standard input.
#![tactic(auto)]

ghost use Rattle.std.specs.Prelude.{◌≡◌, ◌≤◌, length, replicate, IfSome};
ghost use Rattle.reading.specs.Read.{ZerosLent, WordsWithin};

use crate::error::ReadError;
use fields::rules::Rules;
use image::load::LoadOutcome;
use image::piece::load_piece;
use loading::Start;

pub mod error;

// An image that is whole, and how many bytes have come, modulo 2^64.
#[derive(Clone, Copy)]
pub struct Read {
    pub start: Start,
    pub length: u64,
}

// Reads and loads until an image is whole or refused.
#[tactic(auto, using(crate::proofs::ReadLaws::may_begin))]
pub fn read_image(rt: &(impl Input + Eprint), store: &mut [u64]) -> Result<Read, ReadError>
    requires { ZerosLent store.old }
    ensures { WordsWithin result store.new }
{
    let mut buffer = [0u8; 65536];
    let mut loading = loading::nothing_loaded(Rules::Today);
    let mut kept = 0;
    let mut length: u64 = 0;
    // A proved loop has to end, and nothing says that an input does: no input has so many pieces.
    for _ in 0..u64::MAX {
        let piece = streams::read_piece(rt, &mut buffer, kept)?;
        length = length.wrapping_add((piece.size - kept) as u64);
        let outcome = load_piece(
            &mut loading,
            store,
            &mut buffer,
            piece.size,
            piece.has_ended,
        )?;
        match outcome {
            LoadOutcome::More(n) => kept = n,
            LoadOutcome::Ready(start) => return Ok(Read { start, length }),
        }
    }
    Err(ReadError::InputFailed)
}

// The image on standard input, its memory the front of the store. One that is refused, or can't be read, has been answered.
#[tactic(auto, using(crate::proofs::ReadLaws::images))]
pub fn image_on_input(rt: &(impl Input + Print + Eprint), store: &mut [u64]) -> Option<Start>
    requires { store.old ≡ replicate 8320 0 }
    ensures { IfSome result (λ start. start.words ≤ length store.new) }
{
    match read_image(rt, store) {
        Ok(read) => Some(read.start),
        Err(ReadError::InputFailed) => None,
        Err(ReadError::Refused(error)) => {
            streams::print_refusal(rt, error.number());
            None
        }
    }
}
