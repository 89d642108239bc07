// Two walks over the records: the first notes where each word's last record stands, and the second keeps those.
ghost use Rattle.std.specs.Prelude.{◌≡◌, ◌≤◌, length, take, replicate};
ghost use Rattle.model.specs.Convert.{records};
ghost use Rattle.model.specs.Image.{stored};
ghost use Rattle.compaction.specs.Compacted.{Compacted};
ghost use Rattle.compaction.specs.Last.{last_places};

use crate::front::front;
use crate::last::{is_last, note_last};
use buffers::move_bytes;

// The second walk: what stands at `from` is read as it was, since only bytes before `to` have changed.
#[tactic(auto, using(crate::proofs::CompactLaws::compacts))]
fn keep_last(buffer: &mut [u8], end: usize, last: &[usize; 8192]) -> usize
    requires { (end ≤ length buffer.old) × (last.now ≡ last_places 0 (records stored (take end buffer.old)) (replicate 8192 0)) }
    ensures { Compacted end buffer.old result buffer.new }
{
    let mut from = 0;
    let mut to = 0;
    // Stays: what it walks over is what it writes into, so that no iterator could lend it.
    while let Some(record) = front(&buffer[from..end]) {
        let size = record.size;
        if is_last(last, record.word, from) {
            move_bytes(buffer, from, to, size);
            to += size;
        }
        from += size;
    }
    let rest = end - from;
    move_bytes(buffer, from, to, rest);
    to + rest
}

// The buffer's first `end` bytes are compacted in place, and `n` bytes of them are left. Those at `n` and after hold what they held.
pub fn compact(buffer: &mut [u8], end: usize) -> usize
    requires { end ≤ length buffer.old }
    ensures { Compacted end buffer.old result buffer.new }
{
    let mut last = [0; 8192];
    note_last(&buffer[..end], &mut last);
    keep_last(buffer, end, &last)
}
