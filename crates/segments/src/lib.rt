// Translation through a descriptor and the uses of a segment, each equal to its definition in `model`.
#![tactic(auto)]

pub mod access;
pub mod segment;
pub mod translate;
