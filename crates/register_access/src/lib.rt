// What is made of register accesses to one node: status bits set, regions sized. The 64 bytes themselves are `register_header`.
#![tactic(auto)]

pub mod sizing;
pub mod status;
