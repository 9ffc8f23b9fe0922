// Refusals 6 to 10 of a decoded rack: node by node, the lowest number within a node.
#![tactic(auto)]

ghost use Rattle.std.specs.Prelude.{◌≡◌};
ghost use Rattle.rack.specs.definitions.Table.{node_at, tree_of};
ghost use Rattle.rack.specs.definitions.Refused.{number_of};
ghost use Rattle.rack.specs.definitions.Refusal.{too_many, bad_parent, high_device, same_slot, taken_device, region_range, regions_range, bad_region, node_refusal, rack_refusal};

use rack::refusal::Refusal;
use rack::table::{Table, bridges_below, count_of, node_at};
use rack::{Node, Region};

// Refusal 6: a 33rd bridge or a 65th device.
fn too_many(table: &Table, i: usize) -> bool
    ensures { result ≡ too_many (node_at table.now) i }
{
    let bridges = bridges_below(table, i);
    if node_at(table, i).kind.is_bridge() {
        32 <= bridges
    } else {
        64 <= i - bridges
    }
}

// Refusal 7: a parent that is neither the root bus nor an earlier bridge.
fn bad_parent(table: &Table, i: usize) -> bool
    ensures { result ≡ bad_parent (node_at table.now) i }
{
    let n = node_at(table, i);
    let parent = n.parent as usize;
    let bridge = node_at(table, parent).kind.is_bridge();
    !((parent == 255) | ((parent < i) & bridge))
}

// Refusal 8: a device number above 15.
fn high_device(table: &Table, i: usize) -> bool
    ensures { result ≡ high_device (node_at table.now) i }
{
    15 < node_at(table, i).device
}

fn same_slot(m: Node, n: Node) -> bool
    ensures { result ≡ same_slot m n }
{
    (m.parent == n.parent) & (m.device == n.device)
}

// Refusal 9: a device number that an earlier node has on that bus.
fn taken_device(table: &Table, i: usize) -> bool
    ensures { result ≡ taken_device (node_at table.now) i }
{
    let n = node_at(table, i);
    (0..i).any(|j| same_slot(node_at(table, j), n))
}

fn region_range(r: Region) -> bool
    ensures { result ≡ region_range r.kind r.exponent }
{
    let e = r.exponent;
    match r.kind {
        0 => e == 0,
        1 => (2 <= e) & (e <= 8),
        2 | 3 => (4 <= e) & (e <= 31),
        _ => false,
    }
}

fn regions_range(n: Node) -> bool
    ensures { result ≡ regions_range n }
{
    n.regions.iter().all(|r| region_range(*r))
}

// Refusal 10: a region whose kind or exponent is out of range.
fn bad_region(table: &Table, i: usize) -> bool
    ensures { result ≡ bad_region (node_at table.now) i }
{
    let n = node_at(table, i);
    !(n.kind.is_bridge() | regions_range(n))
}

// The lowest number that applies to a node.
pub fn node_refusal(table: &Table, i: usize) -> Result<(), Refusal>
    ensures { number_of result ≡ node_refusal (node_at table.now) i }
{
    if too_many(table, i) {
        return Err(Refusal::TooManyNodes);
    }
    if bad_parent(table, i) {
        return Err(Refusal::BadParent);
    }
    if high_device(table, i) {
        return Err(Refusal::HighDevice);
    }
    if taken_device(table, i) {
        return Err(Refusal::TakenDevice);
    }
    if bad_region(table, i) {
        return Err(Refusal::BadRegion);
    }
    Ok(())
}

// The refusal of a rack's table: that of its first faulty node.
pub fn refusal_of(table: &Table) -> Result<(), Refusal>
    ensures { number_of result ≡ rack_refusal (tree_of table.now) }
{
    let end = count_of(table) as usize;
    for i in 0..end {
        node_refusal(table, i)?;
    }
    Ok(())
}
