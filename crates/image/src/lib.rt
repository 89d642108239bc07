// An image loaded record by record, whole or in pieces, equal to its definition in `model`.
#![tactic(auto)]

pub mod error;
pub mod load;
pub mod piece;
mod word_records;
