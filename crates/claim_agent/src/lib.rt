// Whether an agent of a bus claims an address, and how far upwards the answer stays the same.
#![tactic(auto)]

pub mod answer;

use claim_window::{Area, Windows};
use rack::Range;

// Where an access is claimed: by address, or by bus number (Type 1 configuration).
#[derive(Clone, Copy, PartialEq, Eq)]
pub enum Space {
    Memory,
    Io,
    Configuration,
}

// What a bridge's claims rest on: command bits 0, 1 and 2, its windows, its bus numbers.
#[derive(Clone, Copy)]
pub struct BridgeClaims {
    pub io: bool,
    pub memory: bool,
    pub master: bool,
    pub windows: Windows,
    pub buses: Range,
}

// What a device's claims rest on: command bits 0 and 1, its regions.
#[derive(Clone, Copy)]
pub struct DeviceClaims {
    pub io: bool,
    pub memory: bool,
    pub areas: [Area; 3],
}

// An agent of a bus: a bridge on its primary or on its secondary bus, a device, or the host with its memory.
#[derive(Clone, Copy)]
pub enum Agent {
    Primary(BridgeClaims),
    Secondary(BridgeClaims),
    Device(DeviceClaims),
    Host(Range),
}

// Whether an agent claims an address, and an end up to which that stays the same.
#[derive(Clone, Copy, PartialEq, Eq)]
pub struct Verdict {
    pub claims: bool,
    pub until: u64,
}

// The region of a device that an address reaches, and the offset in it.
#[derive(Clone, Copy, PartialEq, Eq)]
pub struct Reached {
    pub region: u8,
    pub offset: u64,
}

// What is driven on a bus. The address of a configuration access is its bus number.
#[derive(Clone, Copy)]
pub struct Transaction {
    pub space: Space,
    pub bus: u8,
    pub driver: u8,
    pub address: u64,
}

// The claimants of a transaction: none, one, or the first two.
#[derive(Clone, Copy, PartialEq, Eq)]
pub enum Claimants {
    Nobody,
    One(u8),
    Two(u8, u8),
}
