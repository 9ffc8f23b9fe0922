// Registers and their bits, by their names in linux/pci_regs.h; `BRIDGE_CTL_VGA16` has none there. A register that is read as a dword
// is a `u8`, as in an access. Status bits are those of the upper byte.
pub const COMMAND: usize = 0x04;

// claims in I/O space
pub const COMMAND_IO: u8 = 0x01;

// claims in memory space
pub const COMMAND_MEMORY: u8 = 0x02;

// drives its bus; a bridge claims on its secondary bus
pub const COMMAND_MASTER: u8 = 0x04;

pub const STATUS: usize = 0x06;

// gave a target abort
pub const STATUS_SIG_TARGET_ABORT: u8 = 0x08;

// was given a target abort
pub const STATUS_REC_TARGET_ABORT: u8 = 0x10;

// drove what nobody claimed
pub const STATUS_REC_MASTER_ABORT: u8 = 0x20;

pub const BASE_ADDRESS: u8 = 0x10;

pub const SECONDARY_BUS: usize = 0x19;

pub const SUBORDINATE_BUS: usize = 0x1a;

pub const IO_BASE: usize = 0x1c;

pub const IO_LIMIT: usize = 0x1d;

pub const SEC_STATUS: usize = 0x1e;

pub const MEMORY_BASE: usize = 0x20;

pub const MEMORY_LIMIT: usize = 0x22;

pub const PREF_MEMORY_BASE: usize = 0x24;

pub const PREF_MEMORY_LIMIT: usize = 0x26;

pub const PREF_BASE_UPPER32: u8 = 0x28;

pub const PREF_LIMIT_UPPER32: u8 = 0x2c;

pub const IO_BASE_UPPER16: usize = 0x30;

pub const IO_LIMIT_UPPER16: usize = 0x32;

pub const BRIDGE_CONTROL: usize = 0x3e;

// cuts ISA holes out of the I/O window
pub const BRIDGE_CTL_ISA: u8 = 0x04;

// adds VGA addresses
pub const BRIDGE_CTL_VGA: u8 = 0x08;

// decodes 16 bits of a VGA I/O address
pub const BRIDGE_CTL_VGA16: u8 = 0x10;

// turns an unclaimed access into a target abort
pub const BRIDGE_CTL_MASTER_ABORT: u8 = 0x20;

// holds every node below in reset
pub const BRIDGE_CTL_BUS_RESET: u8 = 0x40;
