// A number in decimal: its digits counted, and written from the last to the first.
#![tactic(auto)]

ghost use Rattle.std.specs.Prelude.{◌≡◌, ◌≤◌, ◌+◌, length};
ghost use Rattle.model.specs.Listing.{decimal};
ghost use Rattle.text.specs.Text.{Put, placed};

// How many digits a number has.
pub fn width(v: u32) -> usize
    ensures { (result ≡ length (decimal v)) × (result ≤ 10) }
{
    match v.checked_ilog10() {
        Some(k) => k as usize + 1,
        None => 1,
    }
}

// Its digits, so that the last stands just before `end`.
fn put_digits(text: &mut [u8], at: usize, end: usize, v: u32)
    requires { (end ≡ at + length (decimal v)) × (end ≤ length text.old) }
    ensures { text.new ≡ placed at (decimal v) text.old }
{
    let mut left = v;
    for i in (at..end).rev() {
        text[i] = b'0' + (left % 10) as u8;
        left /= 10;
    }
}

// A number at a place; the answer is the place after it.
pub fn put_decimal(text: &mut [u8], at: usize, v: u32) -> usize
    requires { at + 10 ≤ length text.old }
    ensures { Put 10 at (decimal v) text.old text.new result }
{
    let end = at + width(v);
    put_digits(text, at, end, v);
    end
}

// The same of a wider number: the digits past the narrow ones one by one.
// Stays: a twin, since narrow numbers divide in 32 bits; a listing's speed is in docs/PERFORMANCE.md.
pub fn put_decimal_64(text: &mut [u8], at: usize, v: u64) -> usize
    requires { at + 20 ≤ length text.old }
    ensures { Put 20 at (decimal v) text.old text.new result }
{
    if let Ok(narrow) = u32::try_from(v) {
        return put_decimal(text, at, narrow);
    }
    let end = put_decimal_64(text, at, v / 10);
    text[end] = b'0' + (v % 10) as u8;
    end + 1
}
