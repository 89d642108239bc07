// Why the bench's call refuses: a question of the image's records, one of 1 to 4, or 45.
ghost use Rattle.std.specs.Prelude.{◌≡◌};
ghost use Rattle.dosing.specs.Numbers.{bench_number};
ghost use Rattle.dosing.specs.declared.error.BenchError.TheVariants.{Load, Start};

use loading::error::LoadError;
use questions::start::StartError;

#[derive(Clone, Copy, PartialEq, Eq)]
pub enum BenchError {
    Load(LoadError),
    Start(StartError),
    TextTooShort,
}

impl BenchError {
    pub fn number(self) -> u8
        ensures { result ≡ bench_number self }
    {
        match self {
            BenchError::Load(error) => error.number(),
            BenchError::Start(error) => error.number(),
            BenchError::TextTooShort => 45,
        }
    }
}

impl From<BenchError> for u8 {
    ghost from_gives = { λ error n. n ≡ bench_number error };

    fn from(error: BenchError) -> u8 {
        error.number()
    }
}

impl From<LoadError> for BenchError {
    ghost from_gives = { λ error e. e ≡ Load error };

    fn from(error: LoadError) -> BenchError {
        BenchError::Load(error)
    }
}

impl From<StartError> for BenchError {
    ghost from_gives = { λ error e. e ≡ Start error };

    fn from(error: StartError) -> BenchError {
        BenchError::Start(error)
    }
}
