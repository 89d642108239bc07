// Descriptors, each its word, and the absolute addresses that translation through one makes.
#![tactic(auto, unfolding(model::specs::Words::descriptor_in))]

ghost use Rattle.std.specs.Prelude.{◌≡◌, ◌+◌, ◌<◌, ◌≤◌};
ghost use Rattle.model.specs.Words.{descriptor_in};

use crate::bits::{field, is_on};
use crate::pointer::WordNumber;

// A word of the descriptor segment.
#[derive(Clone, Copy)]
pub struct Descriptor(pub u64);

// The place of a word in memory. Its number is private, so that only `absolute_address` makes one.
#[derive(Clone, Copy)]
pub struct AbsoluteAddress(u64);

pub fn address_of(d: Descriptor) -> u64
    ensures { (result ≡ (descriptor_in d.0).address) × (result < 16777216) }
{
    field::<0, 24>(d.0)
}

pub fn length_of(d: Descriptor) -> u64
    ensures { (result ≡ (descriptor_in d.0).length) × (result < 65536) }
{
    field::<24, 16>(d.0)
}

pub fn r1_of(d: Descriptor) -> u64
    ensures { (result ≡ (descriptor_in d.0).r1) × (result ≤ 7) }
{
    field::<40, 3>(d.0)
}

pub fn r2_of(d: Descriptor) -> u64
    ensures { (result ≡ (descriptor_in d.0).r2) × (result ≤ 7) }
{
    field::<43, 3>(d.0)
}

pub fn r3_of(d: Descriptor) -> u64
    ensures { result ≡ (descriptor_in d.0).r3 }
{
    field::<46, 3>(d.0)
}

// R, W, E and V.
pub fn is_read_on(d: Descriptor) -> bool
    ensures { result ≡ (descriptor_in d.0).read }
{
    is_on::<49>(d.0)
}

pub fn is_write_on(d: Descriptor) -> bool
    ensures { result ≡ (descriptor_in d.0).write }
{
    is_on::<50>(d.0)
}

pub fn is_execute_on(d: Descriptor) -> bool
    ensures { result ≡ (descriptor_in d.0).execute }
{
    is_on::<51>(d.0)
}

pub fn is_valid(d: Descriptor) -> bool
    ensures { result ≡ (descriptor_in d.0).valid }
{
    is_on::<52>(d.0)
}

pub fn gate_of(d: Descriptor) -> u64
    ensures { result ≡ (descriptor_in d.0).gate }
{
    field::<53, 11>(d.0)
}

// The address of a word of a segment, through the segment's descriptor.
pub fn absolute_address(d: Descriptor, word: WordNumber) -> AbsoluteAddress
    requires { word.0 < 65536 }
    ensures { result.0 ≡ (descriptor_in d.0).address + word.0 }
{
    AbsoluteAddress(address_of(d) + word.0)
}

// Where in memory an address is.
pub fn index(a: AbsoluteAddress) -> usize
    ensures { result ≡ a.0 }
{
    a.0 as usize
}
