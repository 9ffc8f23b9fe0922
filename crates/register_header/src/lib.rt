// The registers of one node: header tables, the byte law, register reads and writes; `register_access` sets status bits and sizes regions.
#![tactic(auto)]

pub mod bridge_tables;
pub mod byte;
pub mod device_tables;
pub mod edition;
pub mod mask;
pub mod older_bridge_tables;
pub mod pci_regs;
pub mod register;
pub mod sizing;
pub mod tables;

// What a bridge can do beyond the least that a bridge must: an I/O window above 64 KiB, a prefetchable window above 4 GiB, and VGA
// I/O decoded by 16 bits.
#[derive(Clone, Copy, PartialEq, Eq)]
pub struct Options {
    pub io32: bool,
    pub prefetchable64: bool,
    pub vga16: bool,
}

// A side of a bridge: its primary bus, which it sits on, or its secondary bus, which it holds.
#[derive(Clone, Copy, PartialEq, Eq)]
pub enum Side {
    Primary,
    Secondary,
}

// Bits 11, 12 and 13 of a status register.
#[derive(Clone, Copy, PartialEq, Eq)]
pub enum StatusBit {
    SignaledTargetAbort,
    ReceivedTargetAbort,
    ReceivedMasterAbort,
}
