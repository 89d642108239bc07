// The fields of an instruction word.
#![tactic(auto, unfolding(model::specs::Words::instruction_in))]

ghost use Rattle.std.specs.Prelude.{◌≡◌, ◌<◌};
ghost use Rattle.model.specs.Words.{instruction_in};

use crate::bits::{field, is_on};

pub fn offset(w: u64) -> u16
    ensures { result ≡ (instruction_in w).offset }
{
    field::<0, 16>(w) as u16
}

pub fn prnum(w: u64) -> usize
    ensures { (result ≡ (instruction_in w).prnum) × (result < 8) }
{
    field::<16, 3>(w) as usize
}

// P: by a PR.
pub fn is_by_pr(w: u64) -> bool
    ensures { result ≡ (instruction_in w).p }
{
    is_on::<19>(w)
}

// I: through a pointer word.
pub fn is_indirect(w: u64) -> bool
    ensures { result ≡ (instruction_in w).i }
{
    is_on::<20>(w)
}

pub fn reg(w: u64) -> usize
    ensures { (result ≡ (instruction_in w).reg) × (result < 8) }
{
    field::<21, 3>(w) as usize
}

pub fn opcode(w: u64) -> u8
    ensures { result ≡ (instruction_in w).opcode }
{
    field::<24, 8>(w) as u8
}

pub fn literal(w: u64) -> u64
    ensures { result ≡ (instruction_in w).lit }
{
    field::<32, 32>(w)
}
