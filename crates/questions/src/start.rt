// The questions before a run or step, each by what its no says. As a number a variant is its question's.
ghost use Rattle.std.specs.Prelude.{◌≡◌};
ghost use Rattle.questions.specs.Numbers.{start_number, Starts};

#[derive(Clone, Copy, PartialEq, Eq)]
pub enum StartError {
    MemoryTooLarge = 1,
    OutOfRange = 2,
    RingsBelow = 3,
    BaseOutsideMemory = 4,
}

impl StartError {
    pub fn number(self) -> u8
        ensures { result ≡ start_number self }
    {
        self as u8
    }
}

impl From<StartError> for u8 {
    ghost from_gives = { λ error n. n ≡ start_number error };

    fn from(error: StartError) -> u8 {
        error.number()
    }
}

// No question before a run has the number.
#[derive(Clone, Copy)]
pub struct UnknownNumber;

impl TryFrom<u8> for StartError {
    type Error = UnknownNumber;

    ghost try_from_gives = { Starts };

    fn try_from(number: u8) -> Result<Self, UnknownNumber> {
        match number {
            1 => Ok(StartError::MemoryTooLarge),
            2 => Ok(StartError::OutOfRange),
            3 => Ok(StartError::RingsBelow),
            4 => Ok(StartError::BaseOutsideMemory),
            _ => Err(UnknownNumber),
        }
    }
}
