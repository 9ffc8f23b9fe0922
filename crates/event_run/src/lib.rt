// An event on a rack: what it answers and what it leaves in the registers.
#![tactic(auto)]

pub mod ended;
pub mod run;

use check_search::Report;
use route_bus::Outcome;

// How an access ended.
#[derive(Clone, Copy)]
pub enum Ending {
    Data { value: u32 },
    Stored,
    Owner { node: u8, region: u8, offset: u64 },
    Host { offset: u64 },
    Unclaimed { holder: u8, outcome: Outcome },
    Clash { holder: u8, first: u8, second: u8 },
    Special { holder: u8 },
    Silent,
    Denied,
}

// The answer to an event: how an access ended and the bridges that took it across, what a check says, or who acts from
// now on.
#[derive(Clone, Copy)]
pub enum Answer {
    Ended { crossings: u32, ending: Ending },
    Checked(Report),
    Seated(u8),
}
