// The questions of an image's records, each by what its no says. As a number a variant is its question's.
ghost use Rattle.std.specs.Prelude.{◌≡◌};
ghost use Rattle.loading.specs.Numbers.{load_number};

#[derive(Clone, Copy, PartialEq, Eq)]
pub enum LoadError {
    CutShort = 41,
    OutOfPlace = 42,
    MemoryTooLarge = 43,
    AddressOutsideMemory = 44,
    AddressTwice = 51,
}

impl LoadError {
    pub fn number(self) -> u8
        ensures { result ≡ load_number self }
    {
        self as u8
    }
}

impl From<LoadError> for u8 {
    ghost from_gives = { λ error n. n ≡ load_number error };

    fn from(error: LoadError) -> u8 {
        error.number()
    }
}
