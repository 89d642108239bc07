// A record's mark, two bytes of ASCII, and the bytes of a record with its mark.
ghost use Rattle.std.specs.Prelude.{◌≡◌, [], ◌∷◌};
ghost use Rattle.model.specs.Image.{mark_of, start_size};
ghost use Rattle.fields.specs.Mark.{as_mark, size_of};
ghost use Rattle.fields.specs.Rules.{rules_of};

use crate::rules::Rules;

// ME, ST, WD and RN.
#[derive(Clone, Copy, PartialEq, Eq)]
pub enum Mark {
    Memory,
    Start,
    Word,
    Run,
}

#[tactic(auto, using(crate::proofs::MarkLaws::marks))]
fn mark_in(first: u8, second: u8) -> Option<Mark>
    ensures { as_mark result ≡ mark_of (first ∷ second ∷ []) }
{
    if (first == b'M') & (second == b'E') {
        return Some(Mark::Memory);
    }
    if (first == b'S') & (second == b'T') {
        return Some(Mark::Start);
    }
    if (first == b'W') & (second == b'D') {
        return Some(Mark::Word);
    }
    if (first == b'R') & (second == b'N') {
        return Some(Mark::Run);
    }
    None
}

// None where it is unknown, as with fewer than two bytes.
#[tactic(auto, using(crate::proofs::MarkLaws::marks))]
pub fn mark_of(bytes: &[u8]) -> Option<Mark>
    ensures { as_mark result ≡ mark_of bytes.now }
{
    if bytes.len() < 2 {
        return None;
    }
    mark_in(bytes[0], bytes[1])
}

// ST ends with the switch and its two segments today, and in stored images with PR7.
#[tactic(auto, using(crate::proofs::MarkLaws::start_sizes), unfolding(crate::specs::Rules::rules_of, model::specs::Image::start_size))]
pub fn start_size(rules: Rules) -> usize
    ensures { result ≡ start_size (rules_of rules) }
{
    match rules {
        Rules::Today => 66,
        Rules::Stored => 61,
    }
}

// An unknown mark is known as such from its two bytes.
#[tactic(auto, using(crate::proofs::MarkLaws::start_sizes))]
pub fn size_of(mark: Option<Mark>, rules: Rules) -> usize
    ensures { result ≡ size_of (rules_of rules) mark }
{
    match mark {
        Some(Mark::Memory) => 6,
        Some(Mark::Start) => start_size(rules),
        Some(Mark::Word) => 14,
        Some(Mark::Run) => 6,
        None => 2,
    }
}
