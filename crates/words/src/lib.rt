// Descriptor, pointer and instruction words decoded and encoded, each equal to its definition in `model`.
#![tactic(auto)]

mod bits;
pub mod descriptor;
pub mod instruction;
pub mod pointer;
