// What an image will need: its records are read as loading reads them, and no word of them is kept.
#![tactic(auto)]

ghost use Rattle.std.specs.Prelude.{◌≡◌, ◌-◌, ◌/◌, replicate};
ghost use Rattle.model.specs.Image.{checked};
ghost use Rattle.model.specs.Needs.{needs_refused, needs_on, image_needs};
ghost use Rattle.host.specs.Record.{machine_of, delivery_of};
ghost use Rattle.questions.specs.Numbers.{start_number};
ghost use Rattle.image.specs.Numbers.{image_number};
ghost use Rattle.sizing.specs.View.{as_needs, needs_by};

use fields::rules::Rules;
use host::start::record_size_answer;
use image::error::ImageError;
use image::load::{LoadOutcome, load};
use loading::error::LoadError;
use loading::{Start, empty_set, nothing_loaded};
use questions::start::StartError;

// The number of the question with a no, or 0 and the five figures.
#[repr(C)]
#[derive(Clone, Copy)]
pub struct Needs {
    pub number: u64,
    pub memory: u64,
    pub records: u64,
    pub budget: u64,
    pub lines: u64,
    pub pointers: u64,
}

#[tactic(auto, unfolding(model::specs::Needs::needs_refused))]
pub fn refused(number: u8) -> Needs
    ensures { as_needs result ≡ needs_refused number }
{
    Needs {
        number: number as u64,
        memory: 0,
        records: 0,
        budget: 0,
        lines: 0,
        pointers: 0,
    }
}

pub fn refused_by(error: ImageError) -> Needs
    ensures { as_needs result ≡ needs_refused (image_number error) }
{
    refused(error.number())
}

// The WD records of an accepted image, by its bytes: ME, ST and RN have 78, and each WD 14.
fn records_in(length: u64) -> u64
    ensures { result ≡ (length - 78) / 14 }
{
    if length < 78 {
        return 0;
    }
    (length - 78) / 14
}

// Once RN has come: 1 to 4 with ME's number as memory's size, then the figures of an image of so many bytes.
#[tactic(auto, using(crate::proofs::SizingLaws::answers))]
pub fn needs_of(start: Start, length: u64) -> Result<Needs, StartError>
    ensures { needs_by start_number result ≡ needs_on (checked (delivery_of start.registers) (machine_of start.registers (replicate start.words 0)) start.budget) ((length - 78) / 14) }
{
    record_size_answer(start.registers, start.words as usize)?;
    let budget = start.budget as u64;
    Ok(Needs {
        number: 0,
        memory: start.words as u64,
        records: records_in(length),
        budget,
        lines: budget + 1,
        pointers: 64 * budget,
    })
}

#[tactic(auto, using(crate::proofs::SizingLaws::whole_image))]
fn needs_found(image: &[u8]) -> Result<Needs, ImageError>
    ensures { needs_by image_number result ≡ image_needs image.now }
{
    let mut set = empty_set();
    let mut loading = nothing_loaded(Rules::Today);
    let outcome = load(&mut loading, &mut set, image, true)?;
    match outcome {
        LoadOutcome::More(_used) => Err(ImageError::Load(LoadError::CutShort)),
        LoadOutcome::Ready(start) => {
            let needs = needs_of(start, image.len() as u64)?;
            Ok(needs)
        }
    }
}

// A whole image.
pub fn needs_in(image: &[u8]) -> Needs
    ensures { as_needs result ≡ image_needs image.now }
{
    match needs_found(image) {
        Ok(needs) => needs,
        Err(error) => refused_by(error),
    }
}
