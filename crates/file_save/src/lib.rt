// The file of a rack with its registers: host, nodes, seats, and the registers that differ from reset.
#![tactic(auto)]

pub mod put;
pub mod record;
pub mod save;

// The bytes that the longest file has: a host, 32 bridges, 64 devices, 1,440 seat records and the registers of 96 nodes.
pub const MOST_BYTES: usize = 14609;
