// What opcodes are: the table of their entries, and A's operations, each equal to its definition in `model`.
#![tactic(auto)]

pub mod arithmetic;
pub mod opcode;
pub mod table;
