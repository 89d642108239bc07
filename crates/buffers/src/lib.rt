// Bytes moved within a buffer, and bytes that become zero.
#![tactic(auto)]

ghost use Rattle.std.specs.Prelude.{◌≡◌, ◌+◌, ◌≤◌, length};
ghost use Rattle.buffers.specs.Move.{bytes_moved, cleared};

// `size` bytes at `from` go to `to`, which may overlap; all others stay. Bytes that stand there already aren't copied: a buffer of
// which nothing was dropped yet costs nothing.
#[tactic(auto, using(crate::proofs::MoveLaws::moved_nowhere), unfolding(crate::specs::Move::bytes_moved))]
pub fn move_bytes(buffer: &mut [u8], from: usize, to: usize, size: usize)
    requires { (from + size ≤ length buffer.old) × (to + size ≤ length buffer.old) }
    ensures { buffer.new ≡ bytes_moved from to size buffer.old }
{
    if from == to {
        return;
    }
    buffer.copy_within(from..from + size, to);
}

// `size` bytes at `at` become zero.
#[tactic(auto, unfolding(crate::specs::Move::cleared))]
pub fn clear(buffer: &mut [u8], at: usize, size: usize)
    requires { at + size ≤ length buffer.old }
    ensures { buffer.new ≡ cleared at size buffer.old }
{
    buffer[at..at + size].fill(0);
}
