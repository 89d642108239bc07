// A stored image made today's: of the WD records the last of each address, and five zero bytes after ST.
ghost use Rattle.std.specs.Prelude.{◌+◌, ◌≤◌, length};
ghost use Rattle.compaction.specs.Renewed.{Renewed, ZerosAdded};

use crate::compact::compact;
use crate::start::start_end;

// What follows ST moves up.
fn add_zeros(buffer: &mut [u8], end: usize) -> usize
    requires { end + 5 ≤ length buffer.old }
    ensures { ZerosAdded end buffer.old result buffer.new }
{
    let at = start_end(&buffer[..end]);
    buffers::move_bytes(buffer, at, at + 5, end - at);
    buffers::clear(buffer, at, 5);
    end + 5
}

// The buffer's first `end` bytes are renewed in place, and give `n` bytes. Those at `n` and after hold what they held.
pub fn renew(buffer: &mut [u8], end: usize) -> usize
    requires { end + 5 ≤ length buffer.old }
    ensures { Renewed end buffer.old result buffer.new }
{
    let kept = compact(buffer, end);
    add_zeros(buffer, kept)
}
