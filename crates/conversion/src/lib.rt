// A stored image converted, whole or in pieces: its records are judged as loading does, the last WD of each address is kept, and ST
// gains five zero bytes.
#![tactic(auto)]

ghost use Rattle.std.specs.Prelude.{◌≡◌, ◌+◌, ◌≤◌, length, take};
ghost use Rattle.model.specs.Convert.{convert_call};
ghost use Rattle.model.specs.Questions.{start_questions};
ghost use Rattle.questions.specs.Numbers.{number_by, start_number};
ghost use Rattle.host.specs.Record.{machine_of, delivery_of};
ghost use Rattle.loading.specs.View.{LoadingWithin};
ghost use Rattle.image.specs.Numbers.{image_number};
ghost use Rattle.calls.specs.Call.{CalledAs};
ghost use Rattle.conversion.specs.Piece.{PieceConverted, RoomMade};

use buffers::move_bytes;
use compaction::compact::compact;
use compaction::renew::renew;
use fields::rules::Rules;
use host::start::record_answer;
use image::error::ImageError;
use image::load::{LoadOutcome, load};
use loading::error::LoadError;
use loading::{Loading, Start, empty_store, nothing_loaded};
use questions::start::StartError;

#[derive(Clone, Copy)]
pub enum ConvertOutcome {
    // So many bytes at the buffer's front are records that were loaded, and those after them wait for more.
    More(usize),
    // So many bytes at the buffer's front are the new image.
    Ready(usize),
}

// 1 to 4 of what an image recorded.
fn judge(start: Start, store: &[u64]) -> Result<(), StartError>
    requires { start.words ≤ length store.now }
    ensures { number_by start_number result ≡ start_questions (delivery_of start.registers) (machine_of start.registers (take start.words store.now)) }
{
    let words = start.words as usize;
    record_answer(start.registers, &store[..words])
}

// Of the buffer's first `size` bytes those before `kept` are records that were loaded, and ST may need five bytes after them all.
// `ended`: no bytes come after these.
#[tactic(auto, using(crate::proofs::PieceLaws::pieces))]
pub fn convert_piece(
    loading: &mut Loading,
    store: &mut [u64],
    buffer: &mut [u8],
    kept: usize,
    size: usize,
    ended: bool,
) -> Result<ConvertOutcome, ImageError>
    requires { LoadingWithin loading.old store.old × (length store.old ≡ 8320) × (kept ≤ size) × (size + 5 ≤ length buffer.old) }
    ensures { PieceConverted loading.old store.old buffer.old kept size ended result loading.new store.new buffer.new }
{
    let outcome = load(loading, store, &buffer[kept..size], ended)?;
    match outcome {
        LoadOutcome::More(used) => Ok(ConvertOutcome::More(kept + used)),
        LoadOutcome::Ready(start) => {
            judge(start, store)?;
            Ok(ConvertOutcome::Ready(renew(buffer, size)))
        }
    }
}

// Records that later ones supersede are dropped early, and the bytes that wait follow the rest.

pub fn make_room(buffer: &mut [u8], kept: usize, size: usize) -> usize
    requires { (kept ≤ size) × (size ≤ length buffer.old) }
    ensures { RoomMade kept size buffer.old result buffer.new }
{
    let n = compact(buffer, kept);
    move_bytes(buffer, kept, n, size - kept);
    n
}

// A whole image, where it stands, with five bytes more for ST, and how long the new one is. Where there are fewer, no byte of an
// image is there either: 42.
#[tactic(auto, using(crate::proofs::WholeLaws::wholes))]
pub fn convert(image: &mut [u8]) -> Result<usize, ImageError>
    ensures { CalledAs image_number (convert_call image.old) result image.new }
{
    if image.len() < 5 {
        return Err(ImageError::Load(LoadError::OutOfPlace));
    }
    let mut store = empty_store();
    let mut loading = nothing_loaded(Rules::Stored);
    let size = image.len() - 5;
    let outcome = convert_piece(&mut loading, &mut store, image, 0, size, true)?;
    match outcome {
        ConvertOutcome::More(_kept) => Err(ImageError::Load(LoadError::CutShort)),
        ConvertOutcome::Ready(length) => Ok(length),
    }
}
