// What a bus does with an access: its claimants, or the node that Type 0 configuration reaches.
ghost use Rattle.register_image.specs.definitions.Lent.{tree_in, images_in};
ghost use Rattle.register_image.specs.definitions.LentMut.{tree_at, images_at, Same};
ghost use Rattle.register_image.specs.definitions.Image.{gives};
ghost use Rattle.std.specs.Prelude.{◌≡◌, ◌<◌, ◌&&◌, eqb, unwrap_or, IfSome};
ghost use Rattle.rack.specs.definitions.Table.{tree_of, node_at};
ghost use Rattle.route_bus.specs.definitions.Look.{is_io, side_on, master_abort, unclaimed, owned, claimed, target, found, selects, is_special_cycle, direct, look};

use crate::{Access, End, Outcome, Sight};
use claim_agent::{Claimants, Reached, Space, Transaction};
use rack::table::{Table, count_of, device_at, host_memory, node_at, parent_at};
use register_header::{Side, StatusBit};
use register_image::{Registers, RegistersMut};

fn is_io(space: Space) -> bool
    ensures { result ≡ is_io space }
{
    space == Space::Io
}

// The side on which an agent meets a bus.
pub fn side_on(bus: u8, g: u8) -> Side
    ensures { result ≡ side_on bus g }
{
    if g == bus {
        Side::Secondary
    } else {
        Side::Primary
    }
}

// Bit 13 of the driver, on its side of the bus; the host has none.
fn master_abort(registers: &mut RegistersMut, bus: u8, driver: u8)
    ensures leaves { images_at registers.new ≡ master_abort (tree_at registers.old) (images_at registers.old) bus driver }
    ensures same { Same registers.old registers.new }
{
    if driver == 255 {
        return;
    }
    registers.status_node(driver, side_on(bus, driver), StatusBit::ReceivedMasterAbort);
}

fn unclaimed_on(registers: &mut RegistersMut, bus: u8, driver: u8) -> Sight
    ensures leaves { gives result (images_at registers.new) ≡ unclaimed (tree_at registers.old) (images_at registers.old) bus driver }
    ensures same { Same registers.old registers.new }
{
    master_abort(registers, bus, driver);
    Sight::Ends(End::Unclaimed {
        holder: bus,
        outcome: Outcome::Abort,
    })
}

// The one claimant owns the access or, if a bridge, takes it across.
fn owned_by(registers: &Registers, x: Access, g: u8) -> Sight
    ensures { result ≡ owned (tree_in registers.now) (images_in registers.now) x g }
{
    if g == 255 {
        return Sight::Ends(End::Host {
            offset: x.address.saturating_sub(host_memory(registers.table).first),
        });
    }
    let n = node_at(registers.table, g as usize);
    if n.kind.is_bridge() {
        return Sight::Crosses(g);
    }
    let part = registers.view(g);
    // The definitions have 3 for the region that is reached where there is none.
    let r = claim_bus::decode::device_of(n, part)
        .reached_region(is_io(x.space), x.address)
        .unwrap_or(Reached {
            region: 3,
            offset: 0,
        });
    Sight::Ends(End::Owner {
        node: g,
        region: r.region,
        offset: r.offset,
    })
}

fn claimed_by(registers: &mut RegistersMut, x: Access, bus: u8, driver: u8, c: Claimants) -> Sight
    ensures leaves { gives result (images_at registers.new) ≡ claimed (tree_at registers.old) (images_at registers.old) x bus driver c }
    ensures same { Same registers.old registers.new }
{
    match c {
        Claimants::Nobody => unclaimed_on(registers, bus, driver),
        Claimants::One(g) => owned_by(&registers.lent(), x, g),
        Claimants::Two(y, z) => Sight::Ends(End::Clash {
            holder: bus,
            first: y,
            second: z,
        }),
    }
}

// Whether node i sits on the bus with a device number.
fn sits_at(table: &Table, i: u8, bus: u8, number: u8) -> bool
    ensures { result ≡ (eqb (node_at table.now i).parent bus && eqb (node_at table.now i).device number) }
{
    (parent_at(table, i) == bus) & (device_at(table, i) == number)
}

// The node of a device number on a bus, function 0.
fn target_of(table: &Table, bus: u8, devfn: u8) -> Option<u8>
    ensures number { unwrap_or result 255 ≡ target (tree_of table.now) bus devfn }
    ensures node { IfSome result (λ g. g < 255) }
{
    if devfn % 8 != 0 {
        return None;
    }
    (0..count_of(table)).find(|i| sits_at(table, *i, bus, devfn / 8))
}

// The node that Type 0 configuration finds on a bus; none on a held bus.
fn found_on(registers: &Registers, bus: u8, devfn: u8) -> Option<u8>
    ensures number { unwrap_or result 255 ≡ found (tree_in registers.now) (images_in registers.now) bus devfn }
    ensures node { IfSome result (λ g. g < 255) }
{
    if bus_reset::held::is_held_bus(registers, bus) {
        return None;
    }
    target_of(registers.table, bus, devfn)
}

// Type 0 configuration selects the node of its device number, if it finds one.
fn selected_on(registers: &mut RegistersMut, x: Access, bus: u8, driver: u8) -> Sight
    ensures leaves { gives result (images_at registers.new) ≡ selects (tree_at registers.old) (images_at registers.old) x bus driver }
    ensures same { Same registers.old registers.new }
{
    match found_on(&registers.lent(), bus, x.devfn) {
        None => unclaimed_on(registers, bus, driver),
        Some(g) => Sight::Ends(End::Node(g)),
    }
}

// A configuration write to device 31, function 7, register 0, whatever bytes are enabled.
fn is_special_cycle(x: Access) -> bool
    ensures { result ≡ is_special_cycle x }
{
    x.write & ((x.devfn == 31 * 8 + 7) & (x.register == 0))
}

// A special cycle is for every node of the bus and none of them claims it: it ends there, without a master abort.
fn direct_on(registers: &mut RegistersMut, x: Access, bus: u8, driver: u8) -> Sight
    ensures leaves { gives result (images_at registers.new) ≡ direct (tree_at registers.old) (images_at registers.old) x bus driver }
    ensures same { Same registers.old registers.new }
{
    if is_special_cycle(x) {
        return Sight::Ends(End::Special { holder: bus });
    }
    selected_on(registers, x, bus, driver)
}

// What a bus does with an access.
pub fn look_on(registers: &mut RegistersMut, x: Access, bus: u8, driver: u8, type0: bool) -> Sight
    ensures leaves { gives result (images_at registers.new) ≡ look (tree_at registers.old) (images_at registers.old) x bus driver type0 }
    ensures same { Same registers.old registers.new }
{
    if type0 {
        return direct_on(registers, x, bus, driver);
    }
    let t = Transaction {
        space: x.space,
        bus,
        driver,
        address: x.address,
    };
    let c = claim_bus::bus::claimants_of(&registers.lent(), t);
    claimed_by(registers, x, bus, driver, c)
}
