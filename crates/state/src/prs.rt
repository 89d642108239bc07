// The PRs where the host's record has them: three numbers each, RING in the lower byte of the first, SEGNO and WORDNO.
ghost use Rattle.std.specs.Prelude.{◌≡◌, ◌<◌, ◌≤◌, length, if◌then◌else◌, nat_eq, slice_set};
ghost use Rattle.model.specs.Step.{stack_base};
ghost use Rattle.words.specs.View.{as_pointer};
ghost use Rattle.state.specs.View.{as_pointers, pr_of};

use words::pointer::{Pointer, SegmentNumber, WordNumber};

pub fn pr(prs: &[u16; 24], number: usize) -> Pointer
    requires { number < 8 }
    ensures { (as_pointer result ≡ pr_of prs.now number) × (result.ring ≤ 255) × (result.segment.0 ≤ 65535) × (result.word.0 ≤ 65535) }
{
    let i = 3 * number;
    Pointer {
        ring: u64::from(prs[i]) % 256,
        segment: SegmentNumber(u64::from(prs[i + 1])),
        word: WordNumber(u64::from(prs[i + 2])),
    }
}

pub fn set_pr(prs: &mut [u16; 24], number: usize, p: Pointer)
    requires { (number < 8) × (p.ring ≤ 255) × (p.segment.0 ≤ 65535) × (p.word.0 ≤ 65535) }
    ensures { as_pointers prs.new ≡ slice_set (as_pointers prs.old) number (as_pointer p) }
{
    let i = 3 * number;
    prs[i] = p.ring as u16;
    prs[i + 1] = p.segment.0 as u16;
    prs[i + 2] = p.word.0 as u16;
}

// Where the number of a stack's segment stands: PR6's SEGNO where the ring stays as it was, else PR7's RING, once that is the new ring.
fn stack_place(before: u64, ring: u64) -> usize
    ensures { (result ≡ (if nat_eq ring before then 19 else 21)) × (result < 24) }
{
    if ring == before { 19 } else { 21 }
}

// PR7 after a call. Its segment's number is copied from its place: a choice between two numbers would take one machine register more in
// the loop of a run, and cost every step.
pub fn set_stack_base(prs: &mut [u16; 24], before: u64, ring: u64)
    requires { ring ≤ 7 }
    ensures { as_pointers prs.new ≡ slice_set (as_pointers prs.old) 7 (stack_base before ring (pr_of prs.old 6)) }
{
    prs[21] = ring as u16;
    prs[22] = prs[stack_place(before, ring)];
    prs[23] = 0;
}
