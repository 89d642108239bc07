// Why an image is refused: a question of its records, or one of 1 to 4 of what they give.
ghost use Rattle.std.specs.Prelude.{◌≡◌};
ghost use Rattle.image.specs.Numbers.{image_number};
ghost use Rattle.image.specs.declared.error.ImageError.TheVariants.{Load, Start};

use loading::error::LoadError;
use questions::start::StartError;

#[derive(Clone, Copy, PartialEq, Eq)]
pub enum ImageError {
    Load(LoadError),
    Start(StartError),
}

impl ImageError {
    pub fn number(self) -> u8
        ensures { result ≡ image_number self }
    {
        match self {
            ImageError::Load(error) => error.number(),
            ImageError::Start(error) => error.number(),
        }
    }
}

impl From<ImageError> for u8 {
    ghost from_gives = { λ error n. n ≡ image_number error };

    fn from(error: ImageError) -> u8 {
        error.number()
    }
}

impl From<LoadError> for ImageError {
    ghost from_gives = { λ error e. e ≡ Load error };

    fn from(error: LoadError) -> ImageError {
        ImageError::Load(error)
    }
}

impl From<StartError> for ImageError {
    ghost from_gives = { λ error e. e ≡ Start error };

    fn from(error: StartError) -> ImageError {
        ImageError::Start(error)
    }
}
