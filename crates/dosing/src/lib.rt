// The bench's call: an image loaded and run whole, for its listing.
#![tactic(auto)]

ghost use Rattle.model.specs.Image.{checked};
ghost use Rattle.model.specs.Bench as Bench;
ghost use Rattle.host.specs.Record.{machine_of, delivery_of};
ghost use Rattle.calls.specs.Call.{CalledAs};
ghost use Rattle.dosing.specs.Numbers.{bench_number};

use crate::error::BenchError;
use fields::rules::Rules;
use host::record::{Registers, core_of};
use host::start::record_answer;
use image::load::{LoadOutcome, load};
use listing::list_whole;
use loading::error::LoadError;
use loading::{empty_store, nothing_loaded};

pub mod error;

// What an image gave, run whole: 1 to 4, then 45, then the listing, and how long it is.
#[tactic(auto, using(crate::proofs::BenchLaws::answers))]
pub fn list_loaded(
    registers: Registers,
    memory: &mut [u64],
    budget: u32,
    text: &mut [u8],
) -> Result<usize, BenchError>
    ensures { CalledAs bench_number (Bench.bench_on (checked (delivery_of registers) (machine_of registers memory.old) budget) text.old) result text.new }
{
    record_answer(registers, memory)?;
    if text.len() < 64 * (budget as usize + 1) {
        return Err(BenchError::TextTooShort);
    }
    let core = core_of(registers);
    let prs = registers.prs;
    Ok(list_whole(registers.delivery, core, prs, memory, budget, text))
}

#[tactic(auto, using(crate::proofs::BenchLaws::whole_image))]
pub fn bench(image: &[u8], text: &mut [u8]) -> Result<usize, BenchError>
    ensures { CalledAs bench_number (Bench.bench image.now text.old) result text.new }
{
    let mut store = empty_store();
    let mut loading = nothing_loaded(Rules::Today);
    let outcome = load(&mut loading, &mut store, image, true)?;
    match outcome {
        LoadOutcome::More(_used) => Err(BenchError::Load(LoadError::CutShort)),
        LoadOutcome::Ready(start) => {
            let words = start.words as usize;
            list_loaded(start.registers, &mut store[..words], start.budget, text)
        }
    }
}
