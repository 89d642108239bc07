// What a line is made of, put into a text: numbers, a pointer's numbers, and names.
#![tactic(auto)]

ghost use Rattle.std.specs.Prelude.{◌≡◌, [], ◌∷◌, ◌++◌, ◌≤◌, ◌<◌, ◌+◌, length};
ghost use Rattle.model.specs.Listing.{decimal};
ghost use Rattle.text.specs.Text.{placed, Put};
ghost use Rattle.parts.specs.Spaced.{spaced_pointer};

// A number, and the byte that ends it.
pub fn put_number(text: &mut [u8], at: usize, v: u32, after: u8) -> usize
    requires { at + 11 ≤ length text.old }
    ensures { Put 11 at (decimal v ++ after ∷ []) text.old text.new result }
{
    let end = text::put_decimal(text, at, v);
    text[end] = after;
    end + 1
}

// A number of one digit, and the byte that ends it.
// Stays: of the twins for one digit, five, ten and twenty each divides no more than it must; a listing's speed is in docs/PERFORMANCE.md.
pub fn put_digit(text: &mut [u8], at: usize, v: u64, after: u8) -> usize
    requires { (at + 2 ≤ length text.old) × (v ≤ 9) }
    ensures { Put 2 at (decimal v ++ after ∷ []) text.old text.new result }
{
    text[at] = b'0' + v as u8;
    text[at + 1] = after;
    at + 2
}

// A number of a pointer or of pointer words, and the byte that ends it. Most have one digit or two, which are put directly.
pub fn put_short(text: &mut [u8], at: usize, v: u64, after: u8) -> usize
    requires { (at + 11 ≤ length text.old) × (v < 65536) }
    ensures { Put 6 at (decimal v ++ after ∷ []) text.old text.new result }
{
    if v < 10 {
        return put_digit(text, at, v, after);
    }
    if v < 100 {
        let end = put_digit(text, at, v / 10, b'0' + (v % 10) as u8);
        text[end] = after;
        return end + 1;
    }
    put_number(text, at, v as u32, after)
}

// A pointer's numbers, each with a space after it.
pub fn put_pointer(text: &mut [u8], at: usize, ring: u64, segment: u64, word: u64) -> usize
    requires { (at + 19 ≤ length text.old) × (ring ≤ 7) × (segment ≤ 4095) × (word < 65536) }
    ensures { Put 14 at (spaced_pointer ring segment word) text.old text.new result }
{
    let at_segment = put_digit(text, at, ring, b' ');
    let at_word = put_short(text, at_segment, segment, b' ');
    put_short(text, at_word, word, b' ')
}

// The total of a run's pointer words, with which its last line ends.
pub fn put_total(text: &mut [u8], at: usize, total: u64) -> usize
    requires { at + 21 ≤ length text.old }
    ensures { Put 21 at (decimal total ++ 10 ∷ []) text.old text.new result }
{
    let end = text::put_decimal_64(text, at, total);
    text[end] = b'\n';
    end + 1
}

// Bytes as they are.
#[tactic(auto, unfolding(text::specs::Text::placed))]
pub fn put_bytes(text: &mut [u8], at: usize, bytes: &[u8]) -> usize
    requires { at + length bytes.now ≤ length text.old }
    ensures { (text.new ≡ placed at bytes.now text.old) × (result ≡ at + length bytes.now) }
{
    let end = at + bytes.len();
    text[at..end].copy_from_slice(bytes);
    end
}

// A name with a space after it, a number, and the byte that ends it.
pub fn put_named(text: &mut [u8], at: usize, name: &[u8], v: u32, after: u8) -> usize
    requires { (at + 19 ≤ length text.old) × (length name.now ≤ 8) }
    ensures { Put 19 at (name.now ++ (decimal v ++ after ∷ [])) text.old text.new result }
{
    let at_number = put_bytes(text, at, name);
    put_number(text, at_number, v, after)
}
