// The record at the front of some stored bytes: its size, and the word that it writes.
ghost use Rattle.std.specs.Prelude.{◌≡◌, ◌≤◌, length};
ghost use Rattle.model.specs.Image.{number_at};
ghost use Rattle.compaction.specs.Front.{FrontOf, small_address};

use fields::mark::{Mark, mark_of, size_of};
use fields::number::number_4;
use fields::rules::Rules;

// `word` is `None` where none below 8,192 is written.
#[derive(Clone, Copy)]
pub struct FrontRecord {
    pub size: usize,
    pub word: Option<usize>,
}

// The word that a WD record writes.
fn address_of(bytes: &[u8]) -> Option<usize>
    requires { 6 ≤ length bytes.now }
    ensures { result ≡ small_address (number_at 2 4 bytes.now) }
{
    let address = number_4(bytes, 2) as usize;
    if address < 8192 { Some(address) } else { None }
}

// `None` where there is no whole record of a known mark. Stays: three walks ask it in a `while let`; an iterator would serve the two that
// write no bytes, and with its laws be longer than both.
#[tactic(auto, using(crate::proofs::FrontLaws::fronts))]
pub fn front(bytes: &[u8]) -> Option<FrontRecord>
    ensures { FrontOf bytes.now result }
{
    let Some(mark) = mark_of(bytes) else {
        return None;
    };
    let size = size_of(Some(mark), Rules::Stored);
    if bytes.len() < size {
        return None;
    }
    match mark {
        Mark::Memory | Mark::Start | Mark::Run => Some(FrontRecord { size, word: None }),
        Mark::Word => Some(FrontRecord {
            size,
            word: address_of(bytes),
        }),
    }
}
