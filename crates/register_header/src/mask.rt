// The masks and the reset value of each register byte of a node.
ghost use Rattle.std.specs.Prelude.{◌≡◌, ◌+◌, ◌-◌, ◌^◌, ◌<◌};
ghost use Rattle.register_header.specs.definitions.PciRegs.{BASE_ADDRESS};
ghost use Rattle.register_header.specs.definitions.Mask.{in_region, region_at, region_write, region_reset, write_mask, clear_mask, fixed_mask, ids, reset_byte};

use crate::pci_regs::BASE_ADDRESS;
use rack::{Node, Region};

// The bits e to 31 of a dword.
fn high_bits(e: u8) -> u32
    ensures { result ≡ 2 ^ 32 - 2 ^ e }
{
    if e < 32 { u32::MAX << e } else { 0 }
}

fn region_write(kind: u8, e: u8, k: usize) -> u8
    ensures { result ≡ region_write kind e k }
{
    match kind {
        0 => 0,
        _ if k < 4 => high_bits(e).to_le_bytes()[k],
        3 => 255,
        _ => 0,
    }
}

fn region_reset(kind: u8, k: usize) -> u8
    ensures { result ≡ region_reset kind k }
{
    if 0 < k {
        return 0;
    }
    match kind {
        1 => 1,
        3 => 4,
        _ => 0,
    }
}

// Whether a byte is one of a device's regions, three of eight bytes.
fn in_region(n: Node, at: usize) -> bool
    ensures { result ≡ in_region n at }
{
    let first = BASE_ADDRESS as usize;
    !n.kind.is_bridge() & ((first <= at) & (at < first + 24))
}

// The region that a byte belongs to.
fn region_at(n: Node, at: usize) -> Region
    requires { at < BASE_ADDRESS + 24 }
    ensures { result ≡ region_at n at }
{
    n.regions[at.saturating_sub(BASE_ADDRESS as usize) / 8]
}

pub fn write_mask(n: Node, at: usize) -> u8
    ensures { result ≡ write_mask n at }
{
    if in_region(n, at) {
        let r = region_at(n, at);
        return region_write(r.kind, r.exponent, at % 8);
    }
    crate::tables::write_entry(n.kind, at)
}

pub fn clear_mask(n: Node, at: usize) -> u8
    ensures { result ≡ clear_mask n at }
{
    crate::tables::clear_entry(n.kind, at)
}

pub fn fixed_mask(n: Node, at: usize) -> u8
    ensures { result ≡ fixed_mask n at }
{
    !(write_mask(n, at) | clear_mask(n, at))
}

fn ids_of(n: Node) -> u32
    ensures { result ≡ ids n }
{
    n.device_id as u32 * 65536 + n.vendor_id as u32
}

pub fn reset_byte(n: Node, at: usize) -> u8
    ensures { result ≡ reset_byte n at }
{
    if at < 4 {
        return ids_of(n).to_le_bytes()[at];
    }
    if in_region(n, at) {
        let r = region_at(n, at);
        return region_reset(r.kind, at % 8);
    }
    crate::tables::reset_entry(n.kind, at)
}
