// The open calls over a decoded rack and two lent images. None asks anything of its caller: each answers or refuses by number.
#![tactic(auto)]

ghost use Rattle.std.specs.Prelude.{◌≡◌};
ghost use Rattle.rack.specs.definitions.Grow.{tree};
ghost use Rattle.rack.specs.definitions.Refused.{number_of};
ghost use Rattle.rack.specs.definitions.Table.{tree_of};
ghost use Rattle.seat.specs.definitions.Grants.{acting, grants};
ghost use Rattle.seat.specs.definitions.Table.{grants_of};
ghost use Rattle.register_image.specs.definitions.Image.{images, result_of};
ghost use Rattle.call_table.specs.definitions.Call.{numbered, refusal_by, read_in, store_refusal, stored_in, view_in, size_in, ends_in, run_in, check_in};

use event_run::Answer;
use file_record::Event;
use rack::refusal::Refusal;
use rack::table::{Table, table_of};
use rack::{Rack, Range};
use register_image::{Registers, RegistersMut};
use seat::grow::grants_of;
use seat::table::GrantTable;

// The tables that hold a rack and its grants.
#[derive(Drop)]
struct Tables {
    table: Table,
    grants: GrantTable,
}

fn tables_of(rack: Rack) -> Tables
    ensures { (tree_of result.table ≡ tree rack) × (grants_of result.grants ≡ grants rack) }
{
    Tables {
        table: table_of(rack),
        grants: grants_of(rack),
    }
}

// A dword of a node's registers.
pub fn read_register<'a>(
    rack: Rack,
    bridges: &'a [u8],
    devices: &'a [u8],
    node: u8,
    register: u8,
) -> Result<u64, Refusal>
    ensures { numbered result ≡ read_in (tree rack) (grants rack) (images bridges.now devices.now) node register }
{
    let t = tables_of(rack);
    let registers = Registers {
        table: &t.table,
        bridges,
        devices,
    };
    call_node::read_on(&registers, &t.grants, node, register)
}

// A register write of a node.
pub fn write_register(
    rack: Rack,
    bridges: &mut [u8],
    devices: &mut [u8],
    node: u8,
    register: u8,
    enables: u8,
    put: u32,
) -> Result<(), Refusal>
    ensures { (number_of result ≡ refusal_by (tree rack) (grants rack) (images bridges.old devices.old) (store_refusal (tree rack) node register enables) 0) × (images bridges.new devices.new ≡ stored_in (tree rack) (grants rack) (images bridges.old devices.old) node register enables put) }
{
    let t = tables_of(rack);
    let mut registers = RegistersMut {
        table: &t.table,
        bridges,
        devices,
    };
    call_node::write_on(&mut registers, &t.grants, node, register, enables, put)
}

// The register view: the 64 bytes of a node; an empty part where the call is refused.
pub fn view<'a>(rack: Rack, bridges: &'a [u8], devices: &'a [u8], node: u8) -> &'a [u8]
    ensures { result.now ≡ view_in (tree rack) (grants rack) (images bridges.now devices.now) node }
{
    let t = tables_of(rack);
    let registers = Registers {
        table: &t.table,
        bridges,
        devices,
    };
    call_node::view_on(&registers, &t.grants, node)
}

// The size of a device's region, found by writing all ones; both images are then what they were.
pub fn size_region(
    rack: Rack,
    bridges: &mut [u8],
    devices: &mut [u8],
    node: u8,
    region: u8,
) -> Result<u64, Refusal>
    ensures { (numbered result ≡ size_in (tree rack) (grants rack) (images bridges.old devices.old) node region) × (images bridges.new devices.new ≡ images bridges.old devices.old) }
{
    let t = tables_of(rack);
    let mut registers = RegistersMut {
        table: &t.table,
        bridges,
        devices,
    };
    call_node::size_on(&mut registers, &t.grants, node, region)
}

// Both ends of window k of a bridge (0 memory, 1 prefetchable, 2 I/O), or of region k of a device.
pub fn window_ends<'a>(
    rack: Rack,
    bridges: &'a [u8],
    devices: &'a [u8],
    node: u8,
    k: u8,
) -> Result<Range, Refusal>
    ensures { numbered result ≡ ends_in (tree rack) (grants rack) (images bridges.now devices.now) node k }
{
    let t = tables_of(rack);
    let registers = Registers {
        table: &t.table,
        bridges,
        devices,
    };
    call_node::ends_on(&registers, &t.grants, node, k)
}

// An event of kinds 4 to 8 and 10, the check too, by the acting seat.
pub fn run_event(
    rack: Rack,
    bridges: &mut [u8],
    devices: &mut [u8],
    seat: u8,
    e: Event,
) -> Result<Answer, Refusal>
    ensures { result_of (numbered result) bridges.new devices.new ≡ run_in (tree rack) (acting (grants rack) seat) (images bridges.old devices.old) e }
{
    let t = tables_of(rack);
    let mut registers = RegistersMut {
        table: &t.table,
        bridges,
        devices,
    };
    call_table::runs::run_on(&mut registers, &t.grants, seat, e)
}

// The check of a rack, which changes no register.
pub fn run_check<'a>(rack: Rack, bridges: &'a [u8], devices: &'a [u8]) -> Result<Answer, Refusal>
    ensures { numbered result ≡ check_in (tree rack) (grants rack) (images bridges.now devices.now) }
{
    let t = tables_of(rack);
    let registers = Registers {
        table: &t.table,
        bridges,
        devices,
    };
    call_table::runs::check_on(&registers, &t.grants)
}
