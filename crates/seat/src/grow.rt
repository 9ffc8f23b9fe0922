// The table of a rack's grants, filled record by record, or from a decoded rack.
ghost use Rattle.std.specs.Prelude.{◌≡◌, false, ◌≤◌, ◌<◌, length, set};
ghost use Rattle.rack.specs.definitions.Count.{some};
ghost use Rattle.seat.specs.definitions.Grants.{no_grants, seat_wrong, granting, faulty, named_missing, grants};
ghost use Rattle.seat.specs.definitions.Table.{grant_number, grants_of};

use crate::SeatRecord;
use crate::table::{GrantTable, is_named, slot};
use rack::{Grant, Rack};

// A rack without seat records.
pub fn no_grants() -> GrantTable
    ensures { grants_of result ≡ no_grants }
{
    [0u32; 1441]
}

fn put(grants: &mut GrantTable, at: usize, number: u32)
    requires { at ≤ 1440 }
    ensures { (length grants.old ≡ 1441) × (grants.new ≡ set grants.old at number) }
{
    grants[at] = number;
}

// Refusal 14 is noted.
pub fn note_wrong(grants: &mut GrantTable)
    ensures { grants_of grants.new ≡ faulty (grants_of grants.old) }
{
    put(grants, 1440, 1);
}

// Refusal 14 of a seat record after `count` nodes.
pub fn seat_wrong(grants: &GrantTable, count: u8, r: SeatRecord) -> bool
    ensures { result ≡ seat_wrong count (grants_of grants.now) r }
{
    let named = is_named(grants, r.seat, r.node);
    (count <= r.node) | ((r.seat < 1) | (15 < r.seat)) | named
}

// A seat record without a fault.
pub fn add_grant(grants: &mut GrantTable, count: u8, r: SeatRecord)
    requires { (count ≤ 96) × (seat_wrong count (grants_of grants.old) r ≡ false) }
    ensures { grants_of grants.new ≡ granting (grants_of grants.old) r }
{
    put(grants, slot(r.seat, r.node), 65536 + r.mask as u32);
}

// The number of a grant. That its mask has two bytes is said here: a caller is not told it of an array's element.
fn grant_number(g: Grant) -> u32
    ensures { (result ≡ grant_number g) × (g.mask < 65536) }
{
    if g.named { 65536 + g.mask as u32 } else { 0 }
}

// Whether a decoded rack names a node that is missing.
fn names_missing(rack: Rack) -> bool
    ensures { result ≡ some (named_missing rack) 1440 }
{
    (0..1440).any(|k| rack.grants[k].named & (rack.count as usize <= k % 96))
}

// The grants of a decoded rack.
pub fn grants_of(rack: Rack) -> GrantTable
    ensures { grants_of result ≡ grants rack }
{
    let mut table = no_grants();
    for at in 0..1440 {
        put(&mut table, at, grant_number(rack.grants[at]));
    }
    if names_missing(rack) {
        note_wrong(&mut table);
    }
    table
}
