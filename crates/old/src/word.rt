// One descriptor word: what is asked of it, and what it becomes.
ghost use Rattle.std.specs.Prelude.{◌≡◌};
ghost use Rattle.model.specs.Words.{descriptor_in};
ghost use Rattle.model.specs.Old as Old;
ghost use Rattle.old.specs.View.{as_way, form_number, form_answer};

// From a descriptor of the old benches to one of today's, or back.
#[derive(Clone, Copy, PartialEq, Eq)]
pub enum Way {
    FromOld,
    ToOld,
}

// What a word's form lacks. As a number a variant is its question's.
#[derive(Clone, Copy, PartialEq, Eq)]
pub enum FormError {
    NotOld = 56,
    NotConvertible = 57,
}

impl FormError {
    pub fn number(self) -> u8
        ensures { result ≡ form_number self }
    {
        self as u8
    }
}

// 56: are bits 44 to 63 off?
#[tactic(auto, unfolding(model::specs::Old::rest_is_zero, model::specs::Words::field))]
fn is_rest_zero(word: u64) -> bool
    ensures { result ≡ Old.rest_is_zero word }
{
    word / 17592186044416 % 1048576 == 0
}

// R1, R2 and R3 in one ring?
#[tactic(auto, unfolding(model::specs::Old::rings_are, model::specs::Words::descriptor_in, model::specs::Words::field))]
fn are_rings(word: u64, ring: u64) -> bool
    ensures { result ≡ Old.rings_are ring (descriptor_in word) }
{
    word / 1099511627776 % 8 == ring
        && word / 8796093022208 % 8 == ring
        && word / 70368744177664 % 8 == ring
}

// 57: V on, GATE 0, and rings 4 4 4 or 0 0 0?
#[tactic(auto, unfolding(model::specs::Old::has_old_form, model::specs::Words::descriptor_in, model::specs::Words::field, model::specs::Words::on))]
fn has_old_form(word: u64) -> bool
    ensures { result ≡ Old.has_old_form (descriptor_in word) }
{
    word / 4503599627370496 % 2 == 1
        && word / 9007199254740992 % 2048 == 0
        && (are_rings(word, 4) || are_rings(word, 0))
}

#[tactic(auto, unfolding(model::specs::Old::form_questions, model::specs::Questions::ask))]
pub(crate) fn check_word(word: u64, way: Way) -> Result<(), FormError>
    ensures { form_answer result ≡ Old.form_questions (as_way way) word }
{
    match way {
        Way::FromOld if is_rest_zero(word) => Ok(()),
        Way::FromOld => Err(FormError::NotOld),
        Way::ToOld if has_old_form(word) => Ok(()),
        Way::ToOld => Err(FormError::NotConvertible),
    }
}

// Rings 4 4 4 where user is on, else 0 0 0; V on, GATE 0.
#[tactic(auto, unfolding(model::specs::Old::renewed_word, model::specs::Words::field))]
fn renewed_word(word: u64) -> u64
    ensures { result ≡ Old.renewed_word word }
{
    let ring = 4 * (word / 8796093022208 % 2);
    word % 1099511627776
        + 1099511627776 * ring
        + 8796093022208 * ring
        + 70368744177664 * ring
        + 562949953421312 * (word / 1099511627776 % 8)
        + 4503599627370496
}

// User is on in ring 4.
#[tactic(auto, unfolding(model::specs::Old::old_word, model::specs::Words::field))]
fn old_word(word: u64) -> u64
    ensures { result ≡ Old.old_word word }
{
    word % 1099511627776
        + 1099511627776 * (word / 562949953421312 % 8)
        + 8796093022208 * (word / 1099511627776 % 8 / 4)
}

#[tactic(auto, unfolding(model::specs::Old::converted_word))]
pub(crate) fn converted_word(word: u64, way: Way) -> u64
    ensures { result ≡ Old.converted_word (as_way way) word }
{
    match way {
        Way::FromOld => renewed_word(word),
        Way::ToOld => old_word(word),
    }
}
