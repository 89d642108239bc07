// A segment's own words.
ghost use Rattle.std.specs.Prelude.{◌≡◌, ◌+◌, ◌<◌, ◌≤◌, length, get_or, set, take, drop};
ghost use Rattle.model.specs.Words.{descriptor_in};
ghost use Rattle.segments.specs.Translation.{word_through};

use words::descriptor::Descriptor;
use words::pointer::WordNumber;

// The words of a segment whose descriptor has passed 11 to 14.
pub fn segment_words(memory: &[u64], d: Descriptor) -> &[u64]
    requires { (descriptor_in d.0).address + (descriptor_in d.0).length ≤ length memory.now }
    ensures { result.now ≡ take (descriptor_in d.0).length (drop (descriptor_in d.0).address memory.now) }
{
    let start = words::descriptor::address_of(d) as usize;
    let end = start + words::descriptor::length_of(d) as usize;
    &memory[start..end]
}

// The word with a number in a segment's own words.
pub fn word_of(segment: &[u64], word: WordNumber) -> u64
    requires { word.0 < length segment.now }
    ensures { result ≡ get_or segment.now word.0 0 }
{
    let i = word.0 as usize;
    segment[i]
}

// The word that a descriptor and a word number that have passed 11 to 15 lead to.
#[tactic(auto, unfolding(crate::specs::Translation::word_through))]
pub fn read(memory: &[u64], d: Descriptor, word: WordNumber) -> u64
    requires { ((descriptor_in d.0).address + (descriptor_in d.0).length ≤ length memory.now) × (word.0 < (descriptor_in d.0).length) }
    ensures { result ≡ word_through memory.now d.0 word.0 }
{
    word_of(segment_words(memory, d), word)
}

// That word becomes `value`.
pub fn write(memory: &mut [u64], d: Descriptor, word: WordNumber, value: u64)
    requires { ((descriptor_in d.0).address + (descriptor_in d.0).length ≤ length memory.old) × (word.0 < (descriptor_in d.0).length) }
    ensures { memory.new ≡ set memory.old ((descriptor_in d.0).address + word.0) value }
{
    let i = words::descriptor::index(words::descriptor::absolute_address(d, word));
    memory[i] = value;
}
