// Pointers, and the pointer word that holds one.
ghost use Rattle.std.specs.Prelude.{◌≡◌};
ghost use Rattle.model.specs.Words.{indirect_in, pointer_word};
ghost use Rattle.words.specs.View.{as_pointer, PointerWithin, DecodedPointer};

use crate::bits::{field, is_on};

#[derive(Clone, Copy, Default)]
pub struct SegmentNumber(pub u64);

#[derive(Clone, Copy, Default)]
pub struct WordNumber(pub u64);

// RING, SEGNO and WORDNO, as IPR, a PR and TPR hold them. All are wide, so that a loop carries no padding.
#[derive(Clone, Copy, Default)]
pub struct Pointer {
    pub ring: u64,
    pub segment: SegmentNumber,
    pub word: WordNumber,
}

// The pointer in a pointer word; bits 31 to 63 are ignored.
#[tactic(auto, unfolding(model::specs::Words::pointer_in))]
pub fn decode(w: u64) -> Pointer
    ensures { DecodedPointer w result }
{
    Pointer {
        ring: field::<28, 3>(w),
        segment: SegmentNumber(field::<16, 12>(w)),
        word: WordNumber(field::<0, 16>(w)),
    }
}

// I of a pointer word.
#[tactic(auto, unfolding(model::specs::Words::indirect_in))]
pub fn is_indirect(w: u64) -> bool
    ensures { result ≡ indirect_in w }
{
    is_on::<31>(w)
}

// The pointer word of a pointer, I off and bits 32 to 63 zero.
#[tactic(auto, unfolding(model::specs::Words::pointer_word))]
pub fn encode(p: Pointer) -> u64
    requires { PointerWithin p }
    ensures { result ≡ pointer_word (as_pointer p) }
{
    p.word.0 + 65536 * p.segment.0 + 268435456 * p.ring
}
