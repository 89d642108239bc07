// The numbers of an image, high byte first, and a mark with one.
ghost use Rattle.std.specs.Prelude.{◌≡◌, ◌++◌, ◌≤◌, ◌+◌, length};
ghost use Rattle.model.specs.Write.{bytes};
ghost use Rattle.text.specs.Text.{Put};

// So many bytes of a number, from the last to the first; the answer is the place after them.
pub fn put_number(text: &mut [u8], at: usize, n: usize, v: u64) -> usize
    requires { at + n ≤ length text.old }
    ensures { Put n at (bytes n v) text.old text.new result }
{
    let mut left = v;
    let end = at + n;
    for i in (at..end).rev() {
        text[i] = (left % 256) as u8;
        left /= 256;
    }
    end
}

// A record's mark and four bytes of a number: ME and RN whole, and WD's address.
pub fn put_marked(text: &mut [u8], at: usize, mark: &[u8], v: u64) -> usize
    requires { (at + 6 ≤ length text.old) × (length mark.now ≡ 2) }
    ensures { Put 6 at (mark.now ++ bytes 4 v) text.old text.new result }
{
    let at_number = parts::put_bytes(text, at, mark);
    put_number(text, at_number, 4, v)
}
