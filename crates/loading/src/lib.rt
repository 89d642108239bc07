// What the records so far gave, and what comes of one record.
#![tactic(auto)]

ghost use Rattle.std.specs.Prelude.{◌≡◌, length, replicate};
ghost use Rattle.loading.specs.View.{Starts, StartsSizing};

use fields::rules::Rules;
use host::record::Registers;

pub mod error;
pub mod word;

// ME's number of words, and ST's registers. The store is lent beside this: 8,192 words, of which the first `words` are the image's
// memory, and after them 128 words that are the set of the addresses that a WD has had; for an image's needs the set alone.
#[derive(Clone, Copy)]
pub struct Loading {
    pub rules: Rules,
    pub words: Option<u32>,
    pub registers: Option<Registers>,
}

// An image with all of its records, its budget from RN; 1 to 4 are yet to be asked.
#[derive(Clone, Copy)]
pub struct Start {
    pub words: u32,
    pub registers: Registers,
    pub budget: u32,
}

#[derive(Clone, Copy)]
pub enum Outcome {
    // The bytes don't hold a whole record, or not all of what decides it.
    Waits,
    // A record of so many bytes was loaded.
    Next(usize),
    // RN has come.
    Ready(Start),
}

// Before the first record; what is lent is zeros.
pub fn nothing_loaded(rules: Rules) -> Loading
    ensures { Starts rules result × StartsSizing rules result }
{
    Loading {
        rules,
        words: None,
        registers: None,
    }
}

// What is lent before the first record. The length is said once more for those who lend it as a slice.
pub fn empty_store() -> [u64; 8320]
    ensures { (result ≡ replicate 8320 0) × (8320 ≡ length result) }
{
    [0; 8320]
}

// For an image's needs.
pub fn empty_set() -> [u64; 128]
    ensures { (result ≡ replicate 128 0) × (128 ≡ length result) }
{
    [0; 128]
}
