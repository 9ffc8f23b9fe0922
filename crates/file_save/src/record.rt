// Records into a buffer; each function answers the index after them.
ghost use Rattle.register_image.specs.definitions.Lent.{tree_in, images_in};
ghost use Rattle.std.specs.Prelude.{◌+◌, ◌≤◌, length};
ghost use Rattle.seat.specs.definitions.Table.{grants_of};
ghost use Rattle.file_save.specs.definitions.Saved.{Put, host_bytes, regions_bytes, head_bytes, node_bytes, grant_bytes, seat_bytes, view_bytes, register_bytes};

use crate::put::put;
use rack::table::node_at;
use rack::{Node, Range};
use register_image::Registers;
use register_image::reset::is_changed;
use seat::table::{GrantTable, grant_at};

pub fn put_host(out: &mut [u8], at: usize, memory: Range) -> usize
    requires { at + length (host_bytes memory) ≤ length out.old }
    ensures { Put at (host_bytes memory) out.old result out.new }
{
    let next = put(out, at, &[1]);
    let next = put(out, next, &memory.first.to_le_bytes());
    put(out, next, &memory.last.to_le_bytes())
}

fn put_regions(out: &mut [u8], at: usize, n: Node) -> usize
    requires { at + 6 ≤ length out.old }
    ensures { Put at (regions_bytes n) out.old result out.new }
{
    let [first, second, third] = n.regions;
    let next = put(out, at, &[first.kind, first.exponent]);
    let next = put(out, next, &[second.kind, second.exponent]);
    put(out, next, &[third.kind, third.exponent])
}

// What the records of all kinds of nodes have: kind, parent, device number and the two identifications.
fn put_head(out: &mut [u8], at: usize, n: Node) -> usize
    requires { at + 7 ≤ length out.old }
    ensures { Put at (head_bytes n) out.old result out.new }
{
    let next = put(out, at, &[u8::from(n.kind), n.parent, n.device]);
    let next = put(out, next, &n.vendor_id.to_le_bytes());
    put(out, next, &n.device_id.to_le_bytes())
}

pub fn put_node(out: &mut [u8], at: usize, n: Node) -> usize
    requires { at + length (node_bytes n) ≤ length out.old }
    ensures { Put at (node_bytes n) out.old result out.new }
{
    let next = put_head(out, at, n);
    if n.kind.is_bridge() {
        return next;
    }
    put_regions(out, next, n)
}

fn put_grant(out: &mut [u8], at: usize, seat: u8, node: u8, mask: u16) -> usize
    requires { at + 5 ≤ length out.old }
    ensures { Put at (grant_bytes seat node mask) out.old result out.new }
{
    let next = put(out, at, &[9, seat, node]);
    put(out, next, &mask.to_le_bytes())
}

// The record of a pair, where it is named.
pub fn put_seat(out: &mut [u8], at: usize, grants: &GrantTable, seat: u8, node: u8) -> usize
    requires { at + length (seat_bytes (grants_of grants.now) seat node) ≤ length out.old }
    ensures { Put at (seat_bytes (grants_of grants.now) seat node) out.old result out.new }
{
    let g = grant_at(grants, seat, node);
    if g.named {
        return put_grant(out, at, seat, node, g.mask);
    }
    at
}

fn put_view(out: &mut [u8], at: usize, i: u8, part: &[u8]) -> usize
    requires { at + length (view_bytes i part.now) ≤ length out.old }
    ensures { Put at (view_bytes i part.now) out.old result out.new }
{
    let next = put(out, at, &[11, i]);
    put(out, next, part)
}

// The registers of a node, where they differ from reset.
pub fn put_registers(out: &mut [u8], at: usize, registers: &Registers, i: u8) -> usize
    requires { at + length (register_bytes (tree_in registers.now) (images_in registers.now) i) ≤ length out.old }
    ensures { Put at (register_bytes (tree_in registers.now) (images_in registers.now) i) out.old result out.new }
{
    let part = registers.view(i);
    let n = node_at(registers.table, i as usize);
    if is_changed(n, part) {
        return put_view(out, at, i, part);
    }
    at
}
