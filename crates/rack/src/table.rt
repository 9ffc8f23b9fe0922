// A rack as a table of words, which is lent to everything below an open call: a rack by value would be copied at every call.
ghost use Rattle.std.specs.Prelude.{◌≡◌, ◌+◌, ◌<◌, min};
ghost use Rattle.rack.specs.definitions.Tree.{bridges_below};
ghost use Rattle.rack.specs.definitions.Grow.{counting, tree};
ghost use Rattle.rack.specs.definitions.Node.{is_bridge, own_region};
ghost use Rattle.rack.specs.definitions.Table.{Low, High, End, node_from, low_at, high_at, node_at, tree_of};

use crate::grow::{add_node, no_table};
use crate::{Kind, Node, Rack, Range, Region};

// Two words for each of 96 nodes, then the host memory's first and last address, then the count and the greatest depth.
// An array and no struct: C lends its words as they are, and the theorems say what any words hold (`tree_of`).
pub type Table = [u64; 195];

// A region of a node; a bridge has none.
fn own_region(n: Node, r: usize) -> Region
    requires { r < 3 }
    ensures { result ≡ own_region n r }
{
    if n.kind.is_bridge() {
        Region {
            kind: 0,
            exponent: 0,
        }
    } else {
        n.regions[r]
    }
}

pub fn low_word(n: Node, place: u8) -> u64
    ensures { Low n place result }
{
    let r = own_region(n, 0);
    let s = own_region(n, 1);
    u64::from_le_bytes([
        u8::from(n.kind),
        n.parent,
        n.device,
        place,
        r.kind,
        r.exponent,
        s.kind,
        s.exponent,
    ])
}

pub fn high_word(n: Node, depth: u8) -> u64
    ensures { High n depth result }
{
    let r = own_region(n, 2);
    let [vendor_low, vendor_high] = n.vendor_id.to_le_bytes();
    let [device_low, device_high] = n.device_id.to_le_bytes();
    u64::from_le_bytes([
        r.kind,
        r.exponent,
        vendor_low,
        vendor_high,
        device_low,
        device_high,
        depth,
        0,
    ])
}

// The last word.
pub fn end_word(count: u8, deepest: u8) -> u64
    ensures { End count deepest result }
{
    u64::from_le_bytes([count, deepest, 0, 0, 0, 0, 0, 0])
}

fn node_from(low: u64, high: u64) -> Node
    ensures { result ≡ node_from low high }
{
    let l = low.to_le_bytes();
    let h = high.to_le_bytes();
    Node {
        kind: Kind::from(l[0]),
        parent: l[1],
        device: l[2],
        vendor_id: u16::from_le_bytes([h[2], h[3]]),
        device_id: u16::from_le_bytes([h[4], h[5]]),
        regions: [
            Region {
                kind: l[4],
                exponent: l[5],
            },
            Region {
                kind: l[6],
                exponent: l[7],
            },
            Region {
                kind: h[0],
                exponent: h[1],
            },
        ],
    }
}

pub fn count_of(table: &Table) -> u8
    ensures { result ≡ (tree_of table.now).count }
{
    table[194].to_le_bytes()[0]
}

pub fn host_memory(table: &Table) -> Range
    ensures { result ≡ (tree_of table.now).host_memory }
{
    Range {
        first: table[192],
        last: table[193],
    }
}

// The greatest depth.
pub fn deepest(table: &Table) -> u8
    ensures { result ≡ (tree_of table.now).deepest }
{
    table[194].to_le_bytes()[1]
}

// The two words of a node. Two functions of one line, since the definitions are two.
fn low_at(table: &Table, i: usize) -> u64
    ensures { result ≡ low_at table.now i }
{
    if i < 96 { table[2 * i] } else { 0 }
}

fn high_at(table: &Table, i: usize) -> u64
    ensures { result ≡ high_at table.now i }
{
    if i < 96 { table[2 * i + 1] } else { 0 }
}

pub fn node_at(table: &Table, i: usize) -> Node
    ensures { result ≡ node_at table.now i }
{
    node_from(low_at(table, i), high_at(table, i))
}

// The bus that a node sits on: one word, since every bus asks it of every node.
pub fn parent_at(table: &Table, i: u8) -> u8
    ensures { result ≡ (node_at table.now i).parent }
{
    low_at(table, i as usize).to_le_bytes()[1]
}

// Its device number, from the same word.
pub fn device_at(table: &Table, i: u8) -> u8
    ensures { result ≡ (node_at table.now i).device }
{
    low_at(table, i as usize).to_le_bytes()[2]
}

// Whether a node is a bridge, from one word too.
fn bridge_in(table: &Table, i: usize) -> bool
    ensures { result ≡ is_bridge (node_at table.now i).kind }
{
    let kind = Kind::from(low_at(table, i).to_le_bytes()[0]);
    kind.is_bridge()
}

pub fn is_bridge_at(table: &Table, i: u8) -> bool
    ensures { result ≡ is_bridge (node_at table.now i).kind }
{
    bridge_in(table, i as usize)
}

pub fn place_at(table: &Table, i: usize) -> u8
    ensures { result ≡ (tree_of table.now).place i }
{
    low_at(table, i).to_le_bytes()[3]
}

// The depth of the bus that a node holds, 0 of the root bus.
pub fn depth_at(table: &Table, bus: u8) -> u8
    ensures { result ≡ (tree_of table.now).depth_of bus }
{
    let depth = high_at(table, bus as usize).to_le_bytes()[6];
    // No `min`: bus + 1 may not fit a byte.
    if bus < depth { bus + 1 } else { depth }
}

// How many bridges are among the first n nodes.
pub fn bridges_below(table: &Table, n: usize) -> usize
    ensures { result ≡ bridges_below (node_at table.now) n }
{
    (0..n).filter(|i| bridge_in(table, *i)).count()
}

// Another count; all else stays.
fn set_count(table: &mut Table, count: u8)
    ensures { tree_of table.new ≡ counting count (tree_of table.old) }
{
    table[194] = end_word(count, deepest(table));
}

// The table of a rack, node by node.
pub fn table_of(rack: Rack) -> Table
    ensures { tree_of result ≡ tree rack }
{
    let mut table = no_table(Range {
        first: rack.first,
        last: rack.last,
    });
    let end = rack.count.min(96) as usize;
    for i in 0..end {
        add_node(&mut table, rack.nodes[i]);
    }
    set_count(&mut table, rack.count);
    table
}
