// The way of an access: bus step and bridge step call each other, and the number of crossings still possible falls.
ghost use Rattle.register_image.specs.definitions.LentMut.{tree_at, images_at, Same};
ghost use Rattle.register_image.specs.definitions.Image.{gives};
ghost use Rattle.std.specs.Prelude.{◌≡◌, ◌+◌, ◌<◌};
ghost use Rattle.rack.specs.definitions.Table.{tree_of};
ghost use Rattle.route.specs.definitions.Route.{bus_step, bridge_step, possible, from, configure, received, returned, driven, access};

use rack::table::{Table, deepest, depth_at};
use register_header::pci_regs::{COMMAND, COMMAND_MASTER};
use register_header::register::bit_at;
use register_header::{Side, StatusBit};
use register_image::RegistersMut;
use route_bridge::{byte_of, crossed_by, other_bus, turns_type0};
use route_bus::look::look_on;
use route_bus::{Access, End, Outcome, Route, Sight};

// What a bus answers, at most `left` crossings from it.
#[cycle(bridge_step_bus_step)]
fn bus_step(
    registers: &mut RegistersMut,
    x: Access,
    bus: u8,
    driver: u8,
    type0: bool,
    left: usize,
) -> Route
    requires { left < 4096 }
    ensures leaves { gives result (images_at registers.new) ≡ bus_step (left + left + 1) (tree_at registers.old) (images_at registers.old) x bus driver type0 }
    ensures same { Same registers.old registers.new }
{
    match look_on(registers, x, bus, driver, type0) {
        Sight::Ends(end) => Route { crossings: 0, end },
        Sight::Crosses(_) if left == 0 => Route {
            crossings: 0,
            end: End::Silent,
        },
        Sight::Crosses(g) => bridge_step(registers, x, bus, g, left - 1),
    }
}

// What bridge g answers to what is driven on a bus beside it, at most `left` crossings from the other side.
#[cycle(bridge_step_bus_step)]
fn bridge_step(registers: &mut RegistersMut, x: Access, bus: u8, g: u8, left: usize) -> Route
    requires { left < 4096 }
    ensures leaves { gives result (images_at registers.new) ≡ bridge_step (left + left + 2) (tree_at registers.old) (images_at registers.old) x bus g }
    ensures same { Same registers.old registers.new }
{
    let other = other_bus(registers.table, bus, g);
    let type0 = turns_type0(&registers.lent(), x, bus, g);
    let r = bus_step(registers, x, other, g, type0, left);
    crossed_by(registers, x, bus, g, r)
}

// The crossings that are possible from a bus on.
fn possible_from(table: &Table, bus: u8) -> usize
    ensures { (result ≡ possible (tree_of table.now) bus) × (result < 4096) }
{
    depth_at(table, bus) as usize + deepest(table) as usize
}

fn route_from(registers: &mut RegistersMut, x: Access, bus: u8, driver: u8, type0: bool) -> Route
    ensures leaves { gives result (images_at registers.new) ≡ from (tree_at registers.old) (images_at registers.old) x bus driver type0 }
    ensures same { Same registers.old registers.new }
{
    let left = possible_from(registers.table, bus);
    bus_step(registers, x, bus, driver, type0, left)
}

// A configuration access, which starts at the host.
pub fn route_configuration(registers: &mut RegistersMut, x: Access) -> Route
    ensures leaves { gives result (images_at registers.new) ≡ configure (tree_at registers.old) (images_at registers.old) x }
    ensures same { Same registers.old registers.new }
{
    route_from(registers, x, 255, 255, x.address == 0)
}

// Bit 12 of an initiating device whose access came to a target abort.
fn receive(registers: &mut RegistersMut, i: u8, o: Outcome)
    ensures leaves { images_at registers.new ≡ received (tree_at registers.old) (images_at registers.old) i o }
    ensures same { Same registers.old registers.new }
{
    if o == Outcome::Target {
        registers.status_node(i, Side::Primary, StatusBit::ReceivedTargetAbort);
    }
}

// What comes back to an initiating device.
fn return_to(registers: &mut RegistersMut, i: u8, e: End)
    ensures leaves { images_at registers.new ≡ returned (tree_at registers.old) (images_at registers.old) i e }
    ensures same { Same registers.old registers.new }
{
    let End::Unclaimed { outcome, .. } = e else {
        return;
    };
    receive(registers, i, outcome);
}

// The access of a device that drives: from the bus it sits on.
fn route_device(registers: &mut RegistersMut, x: Access, i: u8) -> Route
    ensures leaves { gives result (images_at registers.new) ≡ driven (tree_at registers.old) (images_at registers.old) x i }
    ensures same { Same registers.old registers.new }
{
    let bus = rack::table::parent_at(registers.table, i);
    let r = route_from(registers, x, bus, i, false);
    return_to(registers, i, r.end);
    r
}

// A memory or I/O access of the host or of a device.
pub fn route_access(registers: &mut RegistersMut, x: Access, i: u8) -> Route
    ensures leaves { gives result (images_at registers.new) ≡ access (tree_at registers.old) (images_at registers.old) x i }
    ensures same { Same registers.old registers.new }
{
    if i == 255 {
        return route_from(registers, x, 255, 255, false);
    }
    if bit_at(byte_of(&registers.lent(), i, COMMAND), COMMAND_MASTER) {
        return route_device(registers, x, i);
    }
    Route {
        crossings: 0,
        end: End::Silent,
    }
}
