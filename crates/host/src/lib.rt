// The register record that a host hands over: the core's form of it, and questions 1 to 4 asked of it.
#![tactic(auto)]

pub mod record;
pub mod start;
