// Why there is no new image.
ghost use Rattle.std.specs.Prelude.{◌≡◌};
ghost use Rattle.convert.specs.declared.error.ConvertError.TheVariants as ConvertError;

use image::error::ImageError;
use streams::InputFailed;

#[derive(Clone, Copy)]
pub enum ConvertError {
    // Standard input can't be read, which has been told.
    InputFailed,
    // The first question with a no.
    Refused(ImageError),
}

impl From<InputFailed> for ConvertError {
    ghost from_gives = { λ _ e. e ≡ ConvertError.InputFailed };

    fn from(_failed: InputFailed) -> ConvertError {
        ConvertError::InputFailed
    }
}

impl From<ImageError> for ConvertError {
    ghost from_gives = { λ error e. e ≡ ConvertError.Refused error };

    fn from(error: ImageError) -> ConvertError {
        ConvertError::Refused(error)
    }
}
