// The numbers of an image, high byte first.
// Stays: one function over a size would answer u64 for all, so that each caller would cast; a trait would have these four as its impls.
ghost use Rattle.std.specs.Prelude.{◌≡◌, ◌+◌, ◌≤◌, length};
ghost use Rattle.model.specs.Image.{number_at};

#[tactic(auto, using(crate::proofs::NumberLaws::numbers))]
pub fn number_1(bytes: &[u8], at: usize) -> u8
    requires { at + 1 ≤ length bytes.now }
    ensures { result ≡ number_at at 1 bytes.now }
{
    bytes[at]
}

#[tactic(auto, using(crate::proofs::NumberLaws::numbers))]
pub fn number_2(bytes: &[u8], at: usize) -> u16
    requires { at + 2 ≤ length bytes.now }
    ensures { result ≡ number_at at 2 bytes.now }
{
    let high = number_1(bytes, at);
    let low = number_1(bytes, at + 1);
    256 * (high as u16) + low as u16
}

#[tactic(auto, using(crate::proofs::NumberLaws::numbers))]
pub fn number_4(bytes: &[u8], at: usize) -> u32
    requires { at + 4 ≤ length bytes.now }
    ensures { result ≡ number_at at 4 bytes.now }
{
    let high = number_2(bytes, at);
    let low = number_2(bytes, at + 2);
    65536 * (high as u32) + low as u32
}

// Four numbers of two bytes: so the compiler reads the eight bytes at once (docs/PERFORMANCE.md).
#[tactic(auto, using(crate::proofs::NumberLaws::numbers))]
pub fn number_8(bytes: &[u8], at: usize) -> u64
    requires { at + 8 ≤ length bytes.now }
    ensures { result ≡ number_at at 8 bytes.now }
{
    let first = number_2(bytes, at);
    let second = number_2(bytes, at + 2);
    let third = number_2(bytes, at + 4);
    let last = number_2(bytes, at + 6);
    281474976710656 * (first as u64)
        + 4294967296 * (second as u64)
        + 65536 * (third as u64)
        + last as u64
}
