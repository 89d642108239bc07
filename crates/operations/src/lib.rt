// What the opcodes do at their operand, but for those that move control, each equal to its definition in `model`.
#![tactic(auto)]

pub mod access;
pub mod registers;
