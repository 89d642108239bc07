// Brackets and flags put into descriptors.
ghost use Rattle.std.specs.Prelude.{◌≡◌, true, ◌+◌, ◌*◌, ◌/◌, ◌%◌, ◌^◌, ◌≤◌, length};
ghost use Rattle.model.specs.Questions.{all};
ghost use Rattle.model.specs.Brackets as Brackets;
ghost use Rattle.tables.specs.View.{as_rows};

use crate::judge::next_row;
use crate::row::Row;

// A descriptor word by twelve bits for its brackets and flags; its other bits stay.
fn with_bits(word: u64, bits: u64) -> u64
    requires { bits ≤ 4095 }
    ensures { result ≡ word % 2 ^ 40 + 2 ^ 40 * bits + 2 ^ 52 * (word / 2 ^ 52) }
{
    word % 1099511627776 + 1099511627776 * bits + 4503599627370496 * (word / 4503599627370496)
}

// A segment's descriptor word by its own row.
#[tactic(auto, using(crate::proofs::PutLaws::word_without_row))]
fn by_row(rows: &[Row], segment: u16, word: u64, segments: u16) -> u64
    requires { all (Brackets.row_fits segments) (as_rows rows.now) ≡ true }
    ensures { result ≡ Brackets.by_row (Brackets.rows_of segment (as_rows rows.now)) word }
{
    match next_row(rows, segment) {
        None => word,
        Some(own) => with_bits(word, rows[own].bracket_bits()),
    }
}

// Every descriptor of the segment at `address`.
#[tactic(auto, using(crate::proofs::PutLaws::word_put, crate::proofs::PutLaws::all_put))]
pub fn put_rows(memory: &mut [u64], address: u32, segments: u16, rows: &[Row])
    requires { (address + segments ≤ length memory.old) × (all (Brackets.row_fits segments) (as_rows rows.now) ≡ true) }
    ensures { memory.new ≡ Brackets.with_rows segments 0 (as_rows rows.now) address memory.old }
{
    for segment in 0..segments {
        let place = address as usize + usize::from(segment);
        memory[place] = by_row(rows, segment, memory[place], segments);
    }
}
