// The windows of a bridge from its options and its 64 register bytes.
ghost use Rattle.std.specs.Prelude.{◌≡◌, ◌-◌, ◌^◌, ◌<◌};
ghost use Rattle.claim_window.specs.definitions.Range.{window};
ghost use Rattle.claim_window.specs.definitions.Window.{word_at, prefetchable_granule, io_granule, memory_of, prefetchable_of, io_of, windows_of};

use claim_window::Windows;
use rack::Range;
use register_header::Options;
use register_header::pci_regs::{
    BRIDGE_CONTROL, BRIDGE_CTL_ISA, BRIDGE_CTL_VGA, BRIDGE_CTL_VGA16, IO_BASE, IO_BASE_UPPER16,
    IO_LIMIT, IO_LIMIT_UPPER16, MEMORY_BASE, MEMORY_LIMIT, PREF_BASE_UPPER32, PREF_LIMIT_UPPER32,
    PREF_MEMORY_BASE, PREF_MEMORY_LIMIT,
};
use register_header::register::{bit_at, byte_at, read_register};

fn word_at(part: &[u8], at: usize) -> u16
    requires { at < 64 }
    ensures { result ≡ word_at part.now at }
{
    u16::from_le_bytes([byte_at(part, at), byte_at(part, at + 1)])
}

// From granule to granule, of 2 to the k addresses, 1 MiB of memory or 4 KiB of I/O: the limit is filled with ones.
pub(crate) fn window_of(k: u8, base: u64, limit: u64) -> Range
    requires { (k < 32) × (base < 2 ^ (64 - k)) × (limit < 2 ^ (64 - k)) }
    ensures { result ≡ window k base limit }
{
    let size = 1u64 << k;
    Range {
        first: base * size,
        last: limit * size + (size - 1),
    }
}

fn memory_of(part: &[u8]) -> Range
    ensures { result ≡ memory_of part.now }
{
    window_of(
        20,
        (word_at(part, MEMORY_BASE) / 16) as u64,
        (word_at(part, MEMORY_LIMIT) / 16) as u64,
    )
}

// The upper 32 bits count where the bridge has them.
fn prefetchable_granule(on: bool, part: &[u8], at: usize, upper: u8) -> u64
    requires { (at < 64) × (upper < 64) }
    ensures { (result ≡ prefetchable_granule on part.now at upper) × (result < 2 ^ 44) }
{
    let low = (word_at(part, at) / 16) as u64;
    if on {
        read_register(part, upper) as u64 * 4096 + low
    } else {
        low
    }
}

fn prefetchable_of(on: bool, part: &[u8]) -> Range
    ensures { result ≡ prefetchable_of on part.now }
{
    window_of(
        20,
        prefetchable_granule(on, part, PREF_MEMORY_BASE, PREF_BASE_UPPER32),
        prefetchable_granule(on, part, PREF_MEMORY_LIMIT, PREF_LIMIT_UPPER32),
    )
}

// The upper 16 bits count where the bridge has them.
fn io_granule(on: bool, part: &[u8], at: usize, upper: usize) -> u64
    requires { upper < 64 }
    ensures { (result ≡ io_granule on part.now at upper) × (result < 2 ^ 20) }
{
    let low = (byte_at(part, at) / 16) as u64;
    if on {
        word_at(part, upper) as u64 * 16 + low
    } else {
        low
    }
}

fn io_of(on: bool, part: &[u8]) -> Range
    ensures { result ≡ io_of on part.now }
{
    window_of(
        12,
        io_granule(on, part, IO_BASE, IO_BASE_UPPER16),
        io_granule(on, part, IO_LIMIT, IO_LIMIT_UPPER16),
    )
}

// The windows of a bridge with these options, whatever its registers hold for others.
pub fn windows_of(options: Options, part: &[u8]) -> Windows
    ensures { result ≡ windows_of options part.now }
{
    let control = byte_at(part, BRIDGE_CONTROL);
    let memory = memory_of(part);
    let prefetchable = prefetchable_of(options.prefetchable64, part);
    let io = io_of(options.io32, part);
    Windows {
        memory,
        prefetchable,
        io,
        isa: bit_at(control, BRIDGE_CTL_ISA),
        vga: bit_at(control, BRIDGE_CTL_VGA),
        vga16: options.vga16 & bit_at(control, BRIDGE_CTL_VGA16),
    }
}
