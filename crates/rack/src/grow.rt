// The table of a rack that is read node by node.
ghost use Rattle.std.specs.Prelude.{◌≡◌, cond, ◌+◌, ◌<◌, length};
ghost use Rattle.rack.specs.definitions.Tree.{bridge_count, device_count};
ghost use Rattle.rack.specs.definitions.Table.{tree_of, table_with};
ghost use Rattle.rack.specs.definitions.Grow.{memory_of, no_tree, new_depth, grown};

use crate::table::{
    Table, bridges_below, count_of, deepest, depth_at, end_word, high_word, low_word,
};
use crate::{Node, Range};

// Host memory; none has one form.
fn memory_of(host: Range) -> Range
    ensures { result ≡ memory_of host }
{
    if host.last < host.first {
        return Range { first: 1, last: 0 };
    }
    host
}

// A table without nodes.
pub fn no_table(host: Range) -> Table
    ensures { tree_of result ≡ no_tree host }
{
    let memory = memory_of(host);
    let mut table = [0u64; 195];
    table[192] = memory.first;
    table[193] = memory.last;
    table
}

// The place of a bridge, or of a device, after the last.
fn new_place(table: &Table, is: bool) -> u8
    requires { (tree_of table.now).count < 96 }
    ensures { result ≡ cond is (bridge_count (tree_of table.now)) (device_count (tree_of table.now)) }
{
    let count = count_of(table);
    let bridges = bridges_below(table, count as usize) as u8;
    if is { bridges } else { count - bridges }
}

// The depth of the bus that a node after the last would hold.
fn new_depth(table: &Table, parent: u8) -> u8
    requires { (tree_of table.now).count < 96 }
    ensures { result ≡ new_depth (tree_of table.now) parent }
{
    if parent < count_of(table) {
        depth_at(table, parent) + 1
    } else {
        1
    }
}

// The words of a node, and the last.
fn put_words(table: &mut Table, at: usize, low: u64, high: u64, end: u64)
    requires { at < 96 }
    ensures { (length table.old ≡ 195) × (table.new ≡ table_with table.old at low high end) }
{
    table[2 * at] = low;
    table[2 * at + 1] = high;
    table[194] = end;
}

// One node more, after the last.
pub fn add_node(table: &mut Table, n: Node)
    requires { (tree_of table.old).count < 96 }
    ensures { tree_of table.new ≡ grown (tree_of table.old) n }
{
    let count = count_of(table);
    let is = n.kind.is_bridge();
    let place = new_place(table, is);
    let depth = new_depth(table, n.parent);
    let greatest = deepest(table).max(if is { depth } else { 0 });
    put_words(
        table,
        count as usize,
        low_word(n, place),
        high_word(n, depth),
        end_word(count + 1, greatest),
    );
}
