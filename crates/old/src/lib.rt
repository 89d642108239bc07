// Descriptors of the old benches, a segment of them, made into today's and back where they stand, all or nothing.
#![tactic(auto)]

ghost use Rattle.std.specs.Prelude.{◌≡◌, map};
ghost use Rattle.model.specs.Old.{converted_word, words_answer, convert_words};
ghost use Rattle.old.specs.View.{as_way, as_answer, answer_of};

use word::{FormError, Way};

pub mod word;

// The first word that fails, and what its form lacks.
#[derive(Clone, Copy, PartialEq, Eq)]
pub struct WordError {
    pub index: usize,
    pub form: FormError,
}

// As C has it: number and index of the first word that fails; 0 and 0 where none does.
#[repr(C)]
#[derive(Clone, Copy, Default)]
pub struct Answer {
    pub number: u64,
    pub index: u64,
}

impl From<Result<(), WordError>> for Answer {
    ghost from_gives = { λ asked answer. as_answer answer ≡ answer_of asked };

    fn from(asked: Result<(), WordError>) -> Answer {
        match asked {
            Ok(()) => Answer::default(),
            Err(error) => Answer {
                number: u64::from(error.form.number()),
                index: error.index as u64,
            },
        }
    }
}

#[tactic(auto, using(crate::proofs::SegmentLaws::answer_laws))]
fn check_words(words: &[u64], way: Way) -> Result<(), WordError>
    ensures { answer_of result ≡ words_answer (as_way way) 0 words.now }
{
    for (index, word) in words.iter().enumerate() {
        word::check_word(*word, way).map_err(|form| WordError { index, form })?;
    }
    Ok(())
}

#[tactic(auto, using(crate::proofs::SegmentLaws::each_laws))]
fn convert_each(words: &mut [u64], way: Way)
    ensures { words.new ≡ map (converted_word (as_way way)) words.old }
{
    for word in words.iter_mut() {
        *word = word::converted_word(*word, way);
    }
}

// All words are judged first; where one fails nothing is written.
#[tactic(auto, using(crate::proofs::SegmentLaws::call_laws, crate::proofs::SegmentLaws::form_number_not_0))]
pub fn convert_words(words: &mut [u64], way: Way) -> Result<(), WordError>
    ensures { (answer_of result ≡ (convert_words (as_way way) words.old).answer) × (words.new ≡ (convert_words (as_way way) words.old).words) }
{
    check_words(words, way)?;
    convert_each(words, way);
    Ok(())
}
