// Decoded windows and regions: what a bridge's windows and a device's regions hold, and how far upwards the answer stays the same.
// `claim_decode` makes them from registers.
#![tactic(auto)]

pub mod cut;
pub mod holds;
pub mod inside;

use rack::Range;

// The windows of a bridge.
#[derive(Clone, Copy)]
pub struct Windows {
    pub memory: Range,
    pub prefetchable: Range,
    pub io: Range,
    pub isa: bool,
    pub vga: bool,
    pub vga16: bool,
}

// The addresses of a device's region, in the I/O or in the memory space.
#[derive(Clone, Copy)]
pub struct Area {
    pub io: bool,
    pub range: Range,
}
