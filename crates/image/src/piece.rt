// An image that comes in pieces: what a buffer holds is loaded, and the start of a record that isn't whole yet is kept.
ghost use Rattle.std.specs.Prelude.{◌≤◌, length, take};
ghost use Rattle.loading.specs.View.{LoadingWithin};
ghost use Rattle.image.specs.Piece.{PieceLoaded};

use crate::load::{LoadOutcome, load};
use buffers::move_bytes;
use loading::Loading;
use loading::error::LoadError;

// Loads the buffer's first `size` bytes; of those that wait for more, `More` says how many stand at its front. `ended`: no bytes come after these.
#[tactic(auto, using(crate::proofs::PieceLaws::pieces))]
pub fn load_piece(
    loading: &mut Loading,
    store: &mut [u64],
    buffer: &mut [u8],
    size: usize,
    ended: bool,
) -> Result<LoadOutcome, LoadError>
    requires { LoadingWithin loading.old store.old × (size ≤ length buffer.old) }
    ensures { PieceLoaded loading.old store.old (take size buffer.old) ended result loading.new store.new buffer.new }
{
    let outcome = load(loading, store, &buffer[..size], ended)?;
    match outcome {
        LoadOutcome::More(used) => {
            let kept = size - used;
            move_bytes(buffer, used, 0, kept);
            Ok(LoadOutcome::More(kept))
        }
        LoadOutcome::Ready(_start) => Ok(outcome),
    }
}
