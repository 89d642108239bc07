// The parts of an image's record: marks, numbers and registers, each equal to its definition in `model`.
#![tactic(auto)]

pub mod mark;
pub mod number;
pub mod registers;
pub mod rules;
