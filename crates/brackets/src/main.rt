// The laptop's program for a table of brackets: its rows and an image on standard input, the image with its descriptors so set on
// standard output.
#![tactic(auto)]

ghost use Rattle.std.specs.Prelude.{◌≡◌, ◌≤◌, ◌+◌, ◌*◌, length};
ghost use Rattle.model.specs.Image.{checked};
ghost use Rattle.model.specs.Listing.{refusal_line};
ghost use Rattle.model.specs.Brackets.{image_bracketed};
ghost use Rattle.model.specs.Brackets as Brackets;
ghost use Rattle.host.specs.Record.{machine_of, delivery_of};
ghost use Rattle.tables.specs.View.{as_row, as_rows};
ghost use Rattle.brackets.specs.Printed.{Printed};

use fields::number::{number_1, number_2};
use host::record::Registers;
use state::reply::Reply;
use tables::row::Row;

// A row's ten bytes: FIRST and LAST in two, high byte first, R1, R2, R3, R, W and E in one each.
#[tactic(auto, unfolding(tables::specs::View::as_row, model::specs::Brackets::row_at))]
fn row_at(bytes: &[u8]) -> Row
    requires { 10 ≤ length bytes.now }
    ensures { as_row result ≡ Brackets.row_at 0 bytes.now }
{
    Row {
        first: number_2(bytes, 0),
        last: number_2(bytes, 2),
        r1: number_1(bytes, 4),
        r2: number_1(bytes, 5),
        r3: number_1(bytes, 6),
        read: number_1(bytes, 7),
        write: number_1(bytes, 8),
        execute: number_1(bytes, 9),
    }
}

// A row in its place, if there is one.
fn keep_row(rows: &mut [Row], i: usize, row: Row) {
    if i < rows.len() {
        rows[i] = row;
    }
}

// Why there are no rows.
#[derive(Clone, Copy)]
enum RowsError {
    // 41.
    CutShort,
    // Which has been told.
    InputFailed,
}

fn read_row(rt: &(impl Input + Eprint)) -> Result<Row, RowsError> {
    let mut bytes = [0u8; 10];
    let Ok(size) = streams::read_whole(rt, &mut bytes) else {
        return Err(RowsError::InputFailed);
    };
    if size < 10 {
        return Err(RowsError::CutShort);
    }
    Ok(row_at(&bytes))
}

// Reads so many rows, and keeps as many as there is room for.
fn read_rows(rt: &(impl Input + Eprint), rows: &mut [Row], count: usize) -> Result<(), RowsError> {
    for i in 0..count {
        let row = read_row(rt)?;
        keep_row(rows, i, row);
    }
    Ok(())
}

fn put_refusal(text: &mut [u8], number: u8) -> usize
    requires { 64 ≤ length text.old }
    ensures { Printed (refusal_line number) text.old text.new result }
{
    endings::put_last_line(text, 0, Reply::Refused(number), 0)
}

// What an image gave: 1 to 4, then the table's questions, then the image with its descriptors so set.
fn put_answer(
    text: &mut [u8],
    registers: Registers,
    memory: &mut [u64],
    budget: u32,
    rows: &[Row],
) -> usize
    requires { 78 + 14 * length memory.old ≤ length text.old }
    ensures { Printed (image_bracketed (as_rows rows.now) (checked (delivery_of registers) (machine_of registers memory.old) budget)) text.old text.new result }
{
    if let Err(error) = host::start::record_answer(registers, memory) {
        return put_refusal(text, error.number());
    }
    let dbr = registers.dbr;
    if let Err(error) = tables::set_brackets(memory, dbr.address, dbr.length, rows) {
        return put_refusal(text, error.number());
    }
    writing::put_image(text, registers, memory, budget)
}

// There is room for a record of each word of the whole store.
fn print_answer(
    rt: &impl Print,
    registers: Registers,
    memory: &mut [u64],
    budget: u32,
    rows: &[Row],
)
    requires { length memory.old ≤ 8320 }
{
    let mut text = [0u8; 116558];
    let size = put_answer(&mut text, registers, memory, budget, rows);
    streams::print(rt, &text, size);
}

// What the image itself is refused for comes first, then the table.
fn bracket_image(rt: &(impl Input + Print + Eprint), rows: &[Row]) {
    let mut store = loading::empty_store();
    if let Some(start) = reading::image_on_input(rt, &mut store) {
        let words = start.words as usize;
        print_answer(rt, start.registers, &mut store[..words], start.budget, rows);
    }
}

// How many rows in two bytes, the rows, then the image. A 33rd row is kept, and no more: with it there are too many.
fn main(rt: HostRuntime) {
    let mut head = [0u8; 2];
    let Ok(size) = streams::read_whole(&rt, &mut head) else {
        return;
    };
    if size < 2 {
        streams::print_refusal(&rt, 41);
        return;
    }
    let count = usize::from(number_2(&head, 0));
    let mut rows = [Row::default(); 33];
    match read_rows(&rt, &mut rows, count) {
        Err(RowsError::InputFailed) => {}
        Err(RowsError::CutShort) => {
            streams::print_refusal(&rt, 41);
        }
        Ok(()) => {
            bracket_image(&rt, &rows[..count.min(33)]);
        }
    }
}
