// WD: 42, 44 and 51, and what it loads.
ghost use Rattle.std.specs.Prelude.{◌≡◌, ◌-◌, ◌≤◌, ◌<◌, length};
ghost use Rattle.std.proofs.Math.Option.{some};
ghost use Rattle.model.specs.Image as Image;
ghost use Rattle.loading.specs.Record.{Asked51, word_put, WordTaken, RecordedInStore};
ghost use Rattle.loading.specs.View.{StoreSized, MemoryWithin, LoadingWithin, rules_of};

use crate::error::LoadError;
use crate::{Loading, Outcome};
use fields::number::{number_4, number_8};
use fields::rules::Rules;

// Where the set starts: after memory, if the store has any. Whether it has is the same for every WD, so that a loop asks it once.
#[tactic(auto, using(crate::proofs::SetLaws::starts))]
fn set_start(rules: Rules, store: &[u64]) -> usize
    requires { StoreSized rules (length store.now) }
    ensures { result ≡ length store.now - 128 }
{
    if 128 < store.len() {
        return 8192;
    }
    0
}

// 51: whether a WD may write the address; today it is then among those that one has had.
#[tactic(auto, using(crate::proofs::SetLaws::asks_51))]
fn may_write(rules: Rules, store: &mut [u64], address: usize) -> bool
    requires { StoreSized rules (length store.old) × (address < 8192) }
    ensures { Asked51 (rules_of rules) address store.old result store.new }
{
    match rules {
        Rules::Stored => true,
        Rules::Today => {
            let at = set_start(rules, store);
            if addresses::is_in(&store[at..], address) {
                return false;
            }
            addresses::put_in(&mut store[at..], address);
            true
        }
    }
}

// A word of memory, where the store has any.
#[tactic(auto, using(crate::proofs::RecordLaws::puts))]
fn put_word(rules: Rules, store: &mut [u64], address: usize, word: u64)
    requires { StoreSized rules (length store.old) × (address < 8192) }
    ensures { store.new ≡ word_put address word store.old }
{
    if 128 < store.len() {
        store[address] = word;
    }
}

// WD: 42 before ME, 44 and 51, and its word put. What it looks at of the records so far is handed over by itself: so WDs that follow
// one another are taken in a loop of its own.
pub fn take_word(
    rules: Rules,
    words: Option<u32>,
    store: &mut [u64],
    bytes: &[u8],
) -> Result<(), LoadError>
    requires { (Image.mark_of bytes.now ≡ some Image.WD) × (14 ≤ length bytes.now) × StoreSized rules (length store.old) × MemoryWithin words store.old }
    ensures { WordTaken rules words store.old bytes.now result store.new }
{
    let Some(words) = words else {
        return Err(LoadError::OutOfPlace);
    };
    let address = number_4(bytes, 2);
    if address >= words {
        return Err(LoadError::AddressOutsideMemory);
    }
    let i = address as usize;
    if !may_write(rules, store, i) {
        return Err(LoadError::AddressTwice);
    }
    put_word(rules, store, i, number_8(bytes, 6));
    Ok(())
}

// WD as a record.
#[tactic(auto, using(crate::proofs::RecordLaws::word_recorded))]
pub fn load_word(loading: &Loading, store: &mut [u64], bytes: &[u8]) -> Result<Outcome, LoadError>
    requires { (Image.mark_of bytes.now ≡ some Image.WD) × (14 ≤ length bytes.now) × LoadingWithin loading.now store.old }
    ensures { RecordedInStore loading.now store.old bytes.now result store.new }
{
    take_word(loading.rules, loading.words, store, bytes)?;
    Ok(Outcome::Next(14))
}
