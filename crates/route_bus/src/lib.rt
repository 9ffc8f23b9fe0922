// What one bus does with an access. `route_bridge` is what one bridge does with it, `route` the cycle of the two.
#![tactic(auto)]

pub mod look;

use claim_agent::Space;

// An access: a memory or I/O address, or a bus number with devfn (device times 8 plus function), register, byte enables and data.
#[derive(Clone, Copy)]
pub struct Access {
    pub space: Space,
    pub write: bool,
    pub address: u64,
    pub devfn: u8,
    pub register: u8,
    pub enables: u8,
    pub data: u32,
}

// What came of an unclaimed access.
#[derive(Clone, Copy, PartialEq, Eq)]
pub enum Outcome {
    Abort,
    Done,
    Target,
}

// Where a route ends: at the node whose register a Type 0 access names, at the region or the host memory that holds the
// address, unclaimed, in a clash, as a special cycle; or nothing was driven.
#[derive(Clone, Copy)]
pub enum End {
    Node(u8),
    Owner { node: u8, region: u8, offset: u64 },
    Host { offset: u64 },
    Unclaimed { holder: u8, outcome: Outcome },
    Clash { holder: u8, first: u8, second: u8 },
    Special { holder: u8 },
    Silent,
}

// How often a bridge took the access across, and where it ended.
#[derive(Clone, Copy)]
pub struct Route {
    pub crossings: u32,
    pub end: End,
}

// What is seen on a bus: where the access ends there, or the bridge that takes it across.
#[derive(Clone, Copy)]
pub enum Sight {
    Ends(End),
    Crosses(u8),
}
