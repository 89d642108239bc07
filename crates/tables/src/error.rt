// The questions of a table, each by what its no says. As a number a variant is its question's.
ghost use Rattle.std.specs.Prelude.{◌≡◌};
ghost use Rattle.tables.specs.Numbers.{table_number};

#[derive(Clone, Copy, PartialEq, Eq)]
pub enum TableError {
    MemoryTooLarge = 1,
    BaseOutsideMemory = 4,
    RowsUnfit = 53,
    SegmentInNoRow = 54,
    SegmentInSeveralRows = 55,
}

impl TableError {
    pub fn number(self) -> u8
        ensures { result ≡ table_number self }
    {
        self as u8
    }
}

impl From<TableError> for u8 {
    ghost from_gives = { λ error n. n ≡ table_number error };

    fn from(error: TableError) -> u8 {
        error.number()
    }
}
