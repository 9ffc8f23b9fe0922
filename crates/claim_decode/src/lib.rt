// Decoding: the windows of a bridge and the regions of a device from their registers. What they hold is `claim_window`.
#![tactic(auto)]

pub mod decode;
pub mod region;
