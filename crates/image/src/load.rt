// Records one after another, until one is refused, the bytes don't hold a whole one, or RN has come.
ghost use Rattle.loading.specs.View.{LoadingWithin};
ghost use Rattle.image.specs.Load.{LoadedAs};

use crate::word_records::load_next;
use loading::error::LoadError;
use loading::{Loading, Outcome, Start};

#[derive(Clone, Copy)]
pub enum LoadOutcome {
    // So many bytes were used, and the rest are to be handed over again with more after them.
    More(usize),
    // RN has come.
    Ready(Start),
}

// `ended`: no bytes come after these.
pub fn load(
    loading: &mut Loading,
    store: &mut [u64],
    bytes: &[u8],
    ended: bool,
) -> Result<LoadOutcome, LoadError>
    requires { LoadingWithin loading.old store.old }
    ensures { LoadedAs loading.old store.old bytes.now ended result loading.new store.new }
{
    let mut at = 0;
    // Stays: a record has as many bytes as it says itself.
    loop {
        let outcome = load_next(loading, store, &bytes[at..], ended)?;
        match outcome {
            Outcome::Waits => return Ok(LoadOutcome::More(at)),
            Outcome::Next(size) => at += size,
            Outcome::Ready(start) => return Ok(LoadOutcome::Ready(start)),
        }
    }
}
