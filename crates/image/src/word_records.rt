// WD records one after another: what the records so far gave isn't carried from one to the next, since a WD changes the store alone.
ghost use Rattle.loading.specs.Record.{RecordedAs};
ghost use Rattle.loading.specs.View.{LoadingWithin};
ghost use Rattle.image.specs.Load.{WordIf, WordLoaded, WordsLoaded};

use loading::error::LoadError;
use loading::word::take_word;
use loading::{Loading, Outcome};
use records::load_record;

#[tactic(auto, using(crate::proofs::LoadLaws::fronts))]
fn is_word(bytes: &[u8]) -> bool
    ensures { WordIf result bytes.now }
{
    if bytes.len() < 14 {
        return false;
    }
    (bytes[0] == b'W') & (bytes[1] == b'D')
}

// The bytes of a WD record in front that was loaded; 0 says nothing of the record there.
#[tactic(auto, using(crate::proofs::LoadLaws::fronts))]
fn load_front(loading: Loading, store: &mut [u64], bytes: &[u8]) -> usize
    requires { LoadingWithin loading store.old }
    ensures { WordLoaded loading store.old bytes.now result store.new }
{
    if !is_word(bytes) {
        return 0;
    }
    match take_word(loading.rules, loading.words, store, bytes) {
        Ok(()) => 14,
        Err(_error) => 0,
    }
}

// So many bytes were WD records, and were loaded.
#[tactic(auto, using(crate::proofs::LoadLaws::words))]
fn load_words(loading: Loading, store: &mut [u64], bytes: &[u8]) -> usize
    requires { LoadingWithin loading store.old }
    ensures { WordsLoaded loading store.old bytes.now result store.new }
{
    let mut at = 0;
    // Stays: it carries nothing but its place (docs/PERFORMANCE.md).
    loop {
        let size = load_front(loading, store, &bytes[at..]);
        if size == 0 {
            return at;
        }
        at += size;
    }
}

// WD records in front, as one record of all their bytes, or else the record that stands there.
#[tactic(auto, using(crate::proofs::LoadLaws::words, crate::proofs::LoadLaws::nexts))]
pub fn load_next(
    loading: &mut Loading,
    store: &mut [u64],
    bytes: &[u8],
    ended: bool,
) -> Result<Outcome, LoadError>
    requires { LoadingWithin loading.old store.old }
    ensures { RecordedAs loading.old store.old bytes.now ended result loading.new store.new }
{
    let used = load_words(*loading, store, bytes);
    if used != 0 {
        return Ok(Outcome::Next(used));
    }
    load_record(loading, store, bytes, ended)
}
