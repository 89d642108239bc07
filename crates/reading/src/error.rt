// Why there is no image.
ghost use Rattle.std.specs.Prelude.{◌≡◌};
ghost use Rattle.reading.specs.declared.error.ReadError.TheVariants as ReadError;

use loading::error::LoadError;
use streams::InputFailed;

#[derive(Clone, Copy, PartialEq, Eq)]
pub enum ReadError {
    // Standard input can't be read, which has been told.
    InputFailed,
    // A question of its records.
    Refused(LoadError),
}

impl From<InputFailed> for ReadError {
    ghost from_gives = { λ _ e. e ≡ ReadError.InputFailed };

    fn from(_failed: InputFailed) -> ReadError {
        ReadError::InputFailed
    }
}

impl From<LoadError> for ReadError {
    ghost from_gives = { λ error e. e ≡ ReadError.Refused error };

    fn from(error: LoadError) -> ReadError {
        ReadError::Refused(error)
    }
}
