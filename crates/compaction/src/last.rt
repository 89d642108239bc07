// Where the last record of each word stands.
ghost use Rattle.std.specs.Prelude.{◌≡◌, ◌<◌, IfSome};
ghost use Rattle.model.specs.Convert.{records};
ghost use Rattle.model.specs.Image.{stored};
ghost use Rattle.compaction.specs.Last.{last_places, last_here};

use crate::front::front;

#[tactic(auto, using(crate::proofs::LastLaws::notes))]
pub fn note_last(bytes: &[u8], last: &mut [usize; 8192])
    ensures { last.new ≡ last_places 0 (records stored bytes.now) last.old }
{
    let mut at = 0;
    while let Some(record) = front(&bytes[at..]) {
        if let Some(word) = record.word {
            last[word] = at;
        }
        at += record.size;
    }
}

// Does no later record write the word of the one at `at`?
pub fn is_last(last: &[usize; 8192], word: Option<usize>, at: usize) -> bool
    requires { IfSome word (λ a. a < 8192) }
    ensures { result ≡ last_here word last.now at }
{
    match word {
        None => true,
        Some(word) => last[word] == at,
    }
}
