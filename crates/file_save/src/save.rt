// The file of a rack with its registers, into a buffer.
ghost use Rattle.register_image.specs.definitions.Lent.{tree_in, images_in};
ghost use Rattle.std.specs.Prelude.{◌≡◌, ◌+◌, ◌≤◌, length};
ghost use Rattle.rack.specs.definitions.Buffer.{over_start};
ghost use Rattle.rack.specs.definitions.Table.{tree_of};
ghost use Rattle.seat.specs.definitions.Table.{grants_of};
ghost use Rattle.file_save.specs.definitions.Saved.{Put, nodes_of, seat_of, seats_of, registers_of, rack_of, saved_file};

use crate::record::{put_host, put_node, put_registers, put_seat};
use rack::table::{Table, count_of, host_memory, node_at};
use register_image::Registers;
use seat::table::GrantTable;

fn put_nodes(out: &mut [u8], at: usize, table: &Table) -> usize
    requires { at + length (nodes_of (tree_of table.now)) ≤ length out.old }
    ensures { Put at (nodes_of (tree_of table.now)) out.old result out.new }
{
    let count = count_of(table);
    let mut next = at;
    for node in 0..count {
        next = put_node(out, next, node_at(table, node as usize));
    }
    next
}

// The records of one seat, by node.
fn put_seat_nodes(out: &mut [u8], at: usize, table: &Table, grants: &GrantTable, seat: u8) -> usize
    requires { at + length (seat_of (tree_of table.now) (grants_of grants.now) seat) ≤ length out.old }
    ensures { Put at (seat_of (tree_of table.now) (grants_of grants.now) seat) out.old result out.new }
{
    let count = count_of(table);
    let mut next = at;
    for node in 0..count {
        next = put_seat(out, next, grants, seat, node);
    }
    next
}

// Seat by seat.
fn put_seats(out: &mut [u8], at: usize, table: &Table, grants: &GrantTable) -> usize
    requires { at + length (seats_of (tree_of table.now) (grants_of grants.now)) ≤ length out.old }
    ensures { Put at (seats_of (tree_of table.now) (grants_of grants.now)) out.old result out.new }
{
    let mut next = at;
    for seat in 1..16 {
        next = put_seat_nodes(out, next, table, grants, seat);
    }
    next
}

// The registers that differ from reset, by node.
fn put_changed(out: &mut [u8], at: usize, registers: &Registers) -> usize
    requires { at + length (registers_of (tree_in registers.now) (images_in registers.now)) ≤ length out.old }
    ensures { Put at (registers_of (tree_in registers.now) (images_in registers.now)) out.old result out.new }
{
    let count = count_of(registers.table);
    let mut next = at;
    for i in 0..count {
        next = put_registers(out, next, registers, i);
    }
    next
}

// Host, nodes and seats, at the start of a buffer.
fn put_rack(out: &mut [u8], table: &Table, grants: &GrantTable) -> usize
    requires { length (rack_of (tree_of table.now) (grants_of grants.now)) ≤ length out.old }
    ensures { Put 0 (rack_of (tree_of table.now) (grants_of grants.now)) out.old result out.new }
{
    let next = put_host(out, 0, host_memory(table));
    let next = put_nodes(out, next, table);
    put_seats(out, next, table, grants)
}

// The whole file at the start of a buffer that has room for it; its length.
pub fn save(registers: &Registers, grants: &GrantTable, out: &mut [u8]) -> usize
    requires { length (saved_file (tree_in registers.now) (grants_of grants.now) (images_in registers.now)) ≤ length out.old }
    ensures { (result ≡ length (saved_file (tree_in registers.now) (grants_of grants.now) (images_in registers.now))) × (out.new ≡ over_start out.old (saved_file (tree_in registers.now) (grants_of grants.now) (images_in registers.now))) }
{
    let next = put_rack(out, registers.table, grants);
    put_changed(out, next, registers)
}
