// Where ST ends: the five bytes that it gains stand there.
ghost use Rattle.std.specs.Prelude.{◌≡◌, ◌≤◌, length};
ghost use Rattle.model.specs.Convert.{records, is_start, start_end};
ghost use Rattle.model.specs.Image.{stored, mark_of};

use crate::front::front;
use fields::mark::{Mark, mark_of};

#[tactic(auto, using(crate::proofs::StartLaws::start_marks))]
fn is_start(bytes: &[u8]) -> bool
    ensures { result ≡ is_start (mark_of bytes.now) }
{
    let Some(mark) = mark_of(bytes) else {
        return false;
    };
    matches!(mark, Mark::Start)
}

// Without an ST, where the records end.
#[tactic(auto, using(crate::proofs::StartLaws::start_walk))]
pub fn start_end(bytes: &[u8]) -> usize
    ensures { (result ≡ start_end (records stored bytes.now)) × (result ≤ length bytes.now) }
{
    let mut at = 0;
    while let Some(record) = front(&bytes[at..]) {
        if is_start(&bytes[at..]) {
            return at + record.size;
        }
        at += record.size;
    }
    at
}
