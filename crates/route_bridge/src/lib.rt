// What a bridge makes of the route from the bus on its other side.
#![tactic(auto)]

ghost use Rattle.register_image.specs.definitions.Lent.{tree_in, images_in};
ghost use Rattle.register_image.specs.definitions.LentMut.{tree_at, images_at, Same};
ghost use Rattle.register_image.specs.definitions.Image.{gives};
ghost use Rattle.std.specs.Prelude.{◌≡◌, ◌+◌, ◌<◌, get_or};
ghost use Rattle.rack.specs.definitions.Table.{tree_of};
ghost use Rattle.register_image.specs.definitions.Image.{view};
ghost use Rattle.route_bus.specs.definitions.Cross.{other_bus, is_configuration, turns_type0, is_posted, towards_later, last_outcome, signalled, last_images, passed, crossed};

use claim_agent::Space;
use rack::table::{Table, node_at};
use register_header::pci_regs::{BRIDGE_CONTROL, BRIDGE_CTL_MASTER_ABORT, SECONDARY_BUS};
use register_header::register::{bit_at, byte_at};
use register_header::{Side, StatusBit};
use register_image::{Registers, RegistersMut};
use route_bus::look::side_on;
use route_bus::{Access, End, Outcome, Route};

// The bus on the other side of bridge g.
pub fn other_bus(table: &Table, bus: u8, g: u8) -> u8
    ensures { result ≡ other_bus (tree_of table.now) bus g }
{
    if g != bus {
        return g;
    }
    node_at(table, g as usize).parent
}

fn is_configuration(space: Space) -> bool
    ensures { result ≡ is_configuration space }
{
    space == Space::Configuration
}

// One byte of node g's registers.
pub fn byte_of(registers: &Registers, g: u8, at: usize) -> u8
    ensures { result ≡ get_or (view (tree_in registers.now) (images_in registers.now) g) at 0 }
{
    byte_at(registers.view(g), at)
}

// Whether Type 1 turns into Type 0 on the other side of bridge g.
pub fn turns_type0(registers: &Registers, x: Access, bus: u8, g: u8) -> bool
    ensures { result ≡ turns_type0 (tree_in registers.now) (images_in registers.now) x bus g }
{
    let secondary = byte_of(registers, g, SECONDARY_BUS) as u64;
    is_configuration(x.space) & (!(g == bus) & (x.address == secondary))
}

fn is_posted(space: Space, write: bool) -> bool
    ensures { result ≡ is_posted space write }
{
    (space == Space::Memory) & write
}

fn towards_later(bus: u8, g: u8) -> Side
    ensures { result ≡ towards_later bus g }
{
    if g == bus {
        Side::Primary
    } else {
        Side::Secondary
    }
}

// What the last bridge makes of an access that nobody claimed.
fn last_outcome(registers: &Registers, x: Access, g: u8) -> Outcome
    ensures { result ≡ last_outcome (tree_in registers.now) (images_in registers.now) x g }
{
    if is_posted(x.space, x.write) {
        return Outcome::Done;
    }
    if bit_at(
        byte_of(registers, g, BRIDGE_CONTROL),
        BRIDGE_CTL_MASTER_ABORT,
    ) {
        return Outcome::Target;
    }
    Outcome::Done
}

// Bit 11 of bridge g towards the initiator.
fn signal(registers: &mut RegistersMut, bus: u8, g: u8)
    ensures leaves { images_at registers.new ≡ signalled (tree_at registers.old) (images_at registers.old) bus g }
    ensures same { Same registers.old registers.new }
{
    registers.status_node(g, side_on(bus, g), StatusBit::SignaledTargetAbort);
}

// The images that the last bridge leaves.
fn last_signal(registers: &mut RegistersMut, bus: u8, g: u8, o: Outcome)
    ensures leaves { images_at registers.new ≡ last_images (tree_at registers.old) (images_at registers.old) bus g o }
    ensures same { Same registers.old registers.new }
{
    if o == Outcome::Target {
        signal(registers, bus, g);
    }
}

// The outcome of an unclaimed access on its way back through bridge g.
fn passed_by(registers: &mut RegistersMut, x: Access, bus: u8, g: u8, o: Outcome) -> Outcome
    ensures leaves { gives result (images_at registers.new) ≡ passed (tree_at registers.old) (images_at registers.old) x bus g o }
    ensures same { Same registers.old registers.new }
{
    match o {
        Outcome::Abort => {
            let outcome = last_outcome(&registers.lent(), x, g);
            last_signal(registers, bus, g, outcome);
            outcome
        }
        Outcome::Done => Outcome::Done,
        Outcome::Target => {
            registers.status_node(g, towards_later(bus, g), StatusBit::ReceivedTargetAbort);
            signal(registers, bus, g);
            Outcome::Target
        }
    }
}

// A route on its way back through bridge g: one crossing more, and what the bridge makes of an unclaimed access.
pub fn crossed_by(registers: &mut RegistersMut, x: Access, bus: u8, g: u8, r: Route) -> Route
    requires { r.crossings < 4096 }
    ensures leaves { gives result (images_at registers.new) ≡ crossed (tree_at registers.old) (images_at registers.old) x bus g r }
    ensures same { Same registers.old registers.new }
{
    let crossings = r.crossings + 1;
    let End::Unclaimed { holder, outcome } = r.end else {
        return Route { crossings, ..r };
    };
    let outcome = passed_by(registers, x, bus, g, outcome);
    Route {
        crossings,
        end: End::Unclaimed { holder, outcome },
    }
}
