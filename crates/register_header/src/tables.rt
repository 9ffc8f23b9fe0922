// The header tables: for each header kind its writable bits, the bits cleared by writing 1, and its reset values.
ghost use Rattle.std.specs.Prelude.{◌≡◌, get_or};
ghost use Rattle.register_header.specs.definitions.Tables.{write_table, clear_table, reset_table};

use crate::bridge_tables::{BRIDGE_CLEAR, BRIDGE_RESET, BRIDGE_WRITE};
use crate::device_tables::{DEVICE_CLEAR, DEVICE_RESET, DEVICE_WRITE};
use crate::older_bridge_tables::{OLDER_BRIDGE_RESET, OLDER_BRIDGE_WRITE};
use crate::register::byte_at;
use rack::Kind;

pub fn write_entry(kind: Kind, at: usize) -> u8
    ensures { result ≡ get_or (write_table kind) at 0 }
{
    let table = match kind {
        Kind::Bridge => &BRIDGE_WRITE,
        Kind::OlderBridge => &OLDER_BRIDGE_WRITE,
        Kind::Device => &DEVICE_WRITE,
    };
    byte_at(table, at)
}

pub fn clear_entry(kind: Kind, at: usize) -> u8
    ensures { result ≡ get_or (clear_table kind) at 0 }
{
    let table = match kind {
        Kind::Bridge | Kind::OlderBridge => &BRIDGE_CLEAR,
        Kind::Device => &DEVICE_CLEAR,
    };
    byte_at(table, at)
}

pub fn reset_entry(kind: Kind, at: usize) -> u8
    ensures { result ≡ get_or (reset_table kind) at 0 }
{
    let table = match kind {
        Kind::Bridge => &BRIDGE_RESET,
        Kind::OlderBridge => &OLDER_BRIDGE_RESET,
        Kind::Device => &DEVICE_RESET,
    };
    byte_at(table, at)
}
