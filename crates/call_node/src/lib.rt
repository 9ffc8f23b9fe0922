// Calls that name a node, over the table of a rack.
#![tactic(auto)]

ghost use Rattle.register_image.specs.definitions.Lent.{tree_in, images_in};
ghost use Rattle.register_image.specs.definitions.LentMut.{tree_at, images_at, Same};
ghost use Rattle.std.specs.Prelude.{◌≡◌};
ghost use Rattle.rack.specs.definitions.Refused.{number_of};
ghost use Rattle.seat.specs.definitions.Table.{grants_of};
ghost use Rattle.call_table.specs.definitions.Call.{numbered, refusal_by, read_in, store_refusal, stored_in, view_in, size_in, ends_in};

use bus_reset::store::store_node;
use call_table::refusal::{
    read_refusal, refused_by, region_refusal, store_refusal, view_refusal, window_refusal,
};
use claim_bus::ends::window_ends;
use rack::Range;
use rack::refusal::Refusal;
use register_header::register::read_register;
use register_image::{Registers, RegistersMut};
use seat::table::GrantTable;

// A dword of a node's registers.
pub fn read_on(
    registers: &Registers,
    grants: &GrantTable,
    node: u8,
    register: u8,
) -> Result<u64, Refusal>
    ensures { numbered result ≡ read_in (tree_in registers.now) (grants_of grants.now) (images_in registers.now) node register }
{
    let field = read_refusal(registers.table, node, register);
    refused_by(registers, grants, field, Ok(()))?;
    let part = registers.view(node);
    Ok(u64::from(read_register(part, register)))
}

// A register write of a node.
pub fn write_on(
    registers: &mut RegistersMut,
    grants: &GrantTable,
    node: u8,
    register: u8,
    enables: u8,
    put: u32,
) -> Result<(), Refusal>
    ensures leaves { (number_of result ≡ refusal_by (tree_at registers.old) (grants_of grants.now) (images_at registers.old) (store_refusal (tree_at registers.old) node register enables) 0) × (images_at registers.new ≡ stored_in (tree_at registers.old) (grants_of grants.now) (images_at registers.old) node register enables put) }
    ensures same { Same registers.old registers.new }
{
    let field = store_refusal(registers.table, node, register, enables);
    refused_by(&registers.lent(), grants, field, Ok(()))?;
    store_node(registers, node, register, enables, put);
    Ok(())
}

// The register view: the 64 bytes of a node; an empty part where the call is refused.
pub fn view_on<'a>(registers: &Registers<'_, 'a>, grants: &GrantTable, node: u8) -> &'a [u8]
    ensures { result.now ≡ view_in (tree_in registers.now) (grants_of grants.now) (images_in registers.now) node }
{
    let field = view_refusal(registers.table, node);
    match refused_by(registers, grants, field, Ok(())) {
        Ok(()) => registers.view(node),
        Err(_) => &registers.bridges[0..0],
    }
}

// The size of a device's region, found by writing all ones; both images are then what they were.
pub fn size_on(
    registers: &mut RegistersMut,
    grants: &GrantTable,
    node: u8,
    region: u8,
) -> Result<u64, Refusal>
    ensures leaves { (numbered result ≡ size_in (tree_at registers.old) (grants_of grants.now) (images_at registers.old) node region) × (images_at registers.new ≡ images_at registers.old) }
    ensures same { Same registers.old registers.new }
{
    let field = region_refusal(registers.table, node, region);
    refused_by(&registers.lent(), grants, field, Ok(()))?;
    Ok(registers.size_region(node, region))
}

// Both ends of window k of a bridge (0 memory, 1 prefetchable, 2 I/O), or of region k of a device.
pub fn ends_on(
    registers: &Registers,
    grants: &GrantTable,
    node: u8,
    k: u8,
) -> Result<Range, Refusal>
    ensures { numbered result ≡ ends_in (tree_in registers.now) (grants_of grants.now) (images_in registers.now) node k }
{
    let field = window_refusal(registers.table, node, k);
    refused_by(registers, grants, field, Ok(()))?;
    Ok(window_ends(registers, node, k))
}
