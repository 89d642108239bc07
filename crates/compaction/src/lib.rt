// Of the WD records in a buffer the last of each address, equal to `kept_of` in `model`, and with them today's ST.
#![tactic(auto)]

pub mod compact;
mod front;
mod last;
pub mod renew;
mod start;
