// Whether two agents of a bus claim what a third one drives; `check_sweep` asks it of a whole rack.
#![tactic(auto)]

pub mod drivers;

use claim_agent::Space;

// Two agents of a bus that claim what a third one drives.
#[derive(Clone, Copy)]
pub struct Fault {
    pub holder: u8,
    pub space: Space,
    pub value: u64,
    pub driver: u8,
    pub first: u8,
    pub second: u8,
}

// What a check says: it passes, or shows the first fault.
pub type Report = Result<(), Fault>;
