// A row of a table, as C lends it.
ghost use Rattle.std.specs.Prelude.{◌≡◌, ◌≤◌};
ghost use Rattle.model.specs.Brackets as Brackets;
ghost use Rattle.tables.specs.View.{as_row};

// The segments FIRST to LAST, and what becomes of their descriptors. A flag is off at 0, and on at any other number.
#[repr(C)]
#[derive(Clone, Copy, Default)]
pub struct Row {
    pub first: u16,
    pub last: u16,
    pub r1: u8,
    pub r2: u8,
    pub r3: u8,
    pub read: u8,
    pub write: u8,
    pub execute: u8,
}

#[tactic(auto, unfolding(model::specs::Brackets::flag_bit))]
fn flag_bit(flag: u8) -> u64
    ensures { (result ≡ Brackets.flag_bit flag) × (result ≤ 1) }
{
    u64::from(flag != 0)
}

impl Row {
    // 53 of one row.
    #[tactic(auto, unfolding(model::specs::Brackets::row_fits, crate::specs::View::as_row))]
    pub fn is_fit(self, segments: u16) -> bool
        ensures { result ≡ Brackets.row_fits segments (as_row self) }
    {
        self.first <= self.last
            && self.last < segments
            && self.r1 <= self.r2
            && self.r2 <= self.r3
            && self.r3 <= 7
    }

    // Is a segment in it?
    #[tactic(auto, unfolding(model::specs::Brackets::in_row, crate::specs::View::as_row))]
    pub fn contains(self, segment: u16) -> bool
        ensures { result ≡ Brackets.in_row segment (as_row self) }
    {
        self.first <= segment && segment <= self.last
    }

    // Bits 40 to 51: R1, R2, R3, R, W and E.
    #[tactic(auto, unfolding(model::specs::Brackets::bracket_bits, crate::specs::View::as_row))]
    pub fn bracket_bits(self) -> u64
        ensures { result ≡ Brackets.bracket_bits (as_row self) }
    {
        u64::from(self.r1)
            + 8 * u64::from(self.r2)
            + 64 * u64::from(self.r3)
            + 512 * flag_bit(self.read)
            + 1024 * flag_bit(self.write)
            + 2048 * flag_bit(self.execute)
    }
}
