// A table for who may do what: its rows set the brackets and flags of every descriptor.
#![tactic(auto)]

ghost use Rattle.std.specs.Prelude.{◌≡◌, length};
ghost use Rattle.model.specs.Brackets.{table_questions, set_brackets};
ghost use Rattle.tables.specs.Numbers.{answer_number};
ghost use Rattle.tables.specs.View.{as_rows, base};

use error::TableError;
use row::Row;

pub mod error;
pub mod judge;
pub mod put;
pub mod row;

// 1, 4, 53, then 54 or 55 of the lowest segment at fault.
#[tactic(auto, using(crate::proofs::AnswerLaws::answer_laws))]
fn answer(memory: &[u64], address: u32, segments: u16, rows: &[Row]) -> Result<(), TableError>
    ensures { answer_number result ≡ table_questions (length memory.now) (base address segments) (as_rows rows.now) }
{
    let size = memory.len() as u64;
    if size > 16777216 {
        return Err(TableError::MemoryTooLarge);
    }
    if segments > 4096 || u64::from(address) + u64::from(segments) > size {
        return Err(TableError::BaseOutsideMemory);
    }
    if !judge::is_table_fit(rows, segments) {
        return Err(TableError::RowsUnfit);
    }
    judge::segments_answer(rows, segments)
}

// All is judged first; a table that is refused writes nothing.
#[tactic(auto, using(crate::proofs::AnswerLaws::set_laws, crate::proofs::JudgeLaws::error_number_not_0))]
pub fn set_brackets(
    memory: &mut [u64],
    address: u32,
    segments: u16,
    rows: &[Row],
) -> Result<(), TableError>
    ensures { (answer_number result ≡ (set_brackets memory.old (base address segments) (as_rows rows.now)).answer) × (memory.new ≡ (set_brackets memory.old (base address segments) (as_rows rows.now)).memory) }
{
    answer(memory, address, segments, rows)?;
    put::put_rows(memory, address, segments, rows);
    Ok(())
}
