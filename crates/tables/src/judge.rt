// 53, 54 and 55 of a table.
ghost use Rattle.std.specs.Prelude.{◌≡◌};
ghost use Rattle.model.specs.Brackets as Brackets;
ghost use Rattle.tables.specs.Next.{NextRow};
ghost use Rattle.tables.specs.Numbers.{answer_number};
ghost use Rattle.tables.specs.View.{as_rows};

use crate::error::TableError;
use crate::row::Row;

const MOST_ROWS: usize = 32;

// 53.
pub fn is_table_fit(rows: &[Row], segments: u16) -> bool
    ensures { result ≡ Brackets.table_fits segments (as_rows rows.now) }
{
    rows.len() <= MOST_ROWS && rows.iter().all(|row| row.is_fit(segments))
}

// The place of the first row that a segment is in.
pub fn next_row(rows: &[Row], segment: u16) -> Option<usize>
    ensures { NextRow segment rows.now result }
{
    rows.iter().position(|row| row.contains(segment))
}

// 54 and 55 of a segment.
fn segment_answer(rows: &[Row], segment: u16) -> Result<(), TableError>
    ensures { answer_number result ≡ Brackets.one_row (Brackets.rows_of segment (as_rows rows.now)) }
{
    let Some(own) = next_row(rows, segment) else {
        return Err(TableError::SegmentInNoRow);
    };
    match next_row(&rows[own + 1..], segment) {
        None => Ok(()),
        Some(_) => Err(TableError::SegmentInSeveralRows),
    }
}

// Of all segments; the lowest at fault decides.
#[tactic(auto, using(crate::proofs::JudgeLaws::segments_laws))]
pub fn segments_answer(rows: &[Row], segments: u16) -> Result<(), TableError>
    ensures { answer_number result ≡ Brackets.segments_questions segments 0 (as_rows rows.now) }
{
    for segment in 0..segments {
        segment_answer(rows, segment)?;
    }
    Ok(())
}
