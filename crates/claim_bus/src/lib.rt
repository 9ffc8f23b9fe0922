// The agents of a bus from their registers, who of them claims a transaction, and both ends of a window.
#![tactic(auto)]

pub mod bus;
pub mod decode;
pub mod ends;
