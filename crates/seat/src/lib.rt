// The seats of a class: which registers of which nodes each may write. Nothing of claims, routes and the check is told of them.
#![tactic(auto)]

pub mod grow;
pub mod table;

// A seat record as it is read: the seat, the node, and a mask with bit i for dword i.
// Bytes as they come: refusal 14 judges them.
#[derive(Clone, Copy)]
pub struct SeatRecord {
    pub seat: u8,
    pub node: u8,
    pub mask: u16,
}
