// The words of a memory as WD records.
ghost use Rattle.std.specs.Prelude.{cond, [], ◌≤◌, ◌+◌, ◌*◌, eqb, length};
ghost use Rattle.model.specs.Write.{WD_record, word_records};
ghost use Rattle.text.specs.Text.{Put};

use crate::number::{put_marked, put_number};

// The record of a word, or nothing for a zero.
fn put_word(text: &mut [u8], at: usize, address: u64, word: u64) -> usize
    requires { at + 14 ≤ length text.old }
    ensures { Put 14 at (cond (eqb word 0) [] (WD_record address word)) text.old text.new result }
{
    if word == 0 {
        return at;
    }
    let at_word = put_marked(text, at, b"WD", address);
    put_number(text, at_word, 8, word)
}

// The records of all words, in the order of addresses.
pub fn put_words(text: &mut [u8], at: usize, memory: &[u64]) -> usize
    requires { at + 14 * length memory.now ≤ length text.old }
    ensures { Put (14 * length memory.now) at (word_records 0 memory.now) text.old text.new result }
{
    let mut next = at;
    for (k, word) in memory.iter().enumerate() {
        next = put_word(text, next, k as u64, *word);
    }
    next
}
