// The first driver that two others answer at an address.
ghost use Rattle.register_image.specs.definitions.Lent.{tree_in, images_in};
ghost use Rattle.std.specs.Prelude.{◌≡◌, ◌≤◌};
ghost use Rattle.rack.specs.definitions.Tree.{agents, nodes_on};
ghost use Rattle.check_search.specs.definitions.Report.{Pass};
ghost use Rattle.check_search.specs.definitions.Check.{first_in, shown, driven_by, at_value};

use crate::{Fault, Report};
use claim_agent::{Claimants, Space, Transaction};
use rack::table::{count_of, parent_at};
use register_image::Registers;

// Two claimants are a fault.
fn shown_by(bus: u8, space: Space, a: u64, driver: u8, c: Claimants) -> Report
    ensures { result ≡ shown bus space a driver c }
{
    match c {
        Claimants::Nobody | Claimants::One(_) => Ok(()),
        Claimants::Two(x, y) => Err(Fault {
            holder: bus,
            space,
            value: a,
            driver,
            first: x,
            second: y,
        }),
    }
}

// One driver at one address.
fn driven_by(registers: &Registers, bus: u8, space: Space, a: u64, by: u8) -> Report
    ensures { result ≡ driven_by (tree_in registers.now) (images_in registers.now) bus space a by }
{
    let t = Transaction {
        space,
        bus,
        driver: by,
        address: a,
    };
    let c = claim_bus::bus::claimants_of(registers, t);
    shown_by(bus, space, a, by, c)
}

// The nodes on a bus as drivers.
fn nodes_drive(registers: &Registers, bus: u8, space: Space, a: u64) -> Report
    ensures { result ≡ first_in (driven_by (tree_in registers.now) (images_in registers.now) bus space a) (nodes_on (tree_in registers.now) bus) }
{
    let count = count_of(registers.table);
    for i in 0..count {
        if parent_at(registers.table, i) == bus {
            driven_by(registers, bus, space, a, i)?;
        }
    }
    Ok(())
}

// All agents of a bus as drivers.
fn agents_drive(registers: &Registers, bus: u8, space: Space, a: u64) -> Report
    ensures { result ≡ first_in (driven_by (tree_in registers.now) (images_in registers.now) bus space a) (agents (tree_in registers.now) bus) }
{
    driven_by(registers, bus, space, a, bus)?;
    nodes_drive(registers, bus, space, a)
}

// The first driver of a space: of configuration the holder alone.
fn first_driver(registers: &Registers, bus: u8, space: Space, a: u64) -> Report
    ensures { result ≡ at_value (tree_in registers.now) (images_in registers.now) bus space a }
{
    match space {
        Space::Memory | Space::Io => agents_drive(registers, bus, space, a),
        Space::Configuration => driven_by(registers, bus, space, a, bus),
    }
}

// What is found at an address, where no more than `claiming` agents claim: drivers are tried only if there are two.
pub fn found_at(registers: &Registers, bus: u8, space: Space, a: u64, claiming: usize) -> Report
    requires { claiming ≤ 1 → at_value (tree_in registers.now) (images_in registers.now) bus space a ≡ Pass }
    ensures { result ≡ at_value (tree_in registers.now) (images_in registers.now) bus space a }
{
    if claiming <= 1 {
        return Ok(());
    }
    first_driver(registers, bus, space, a)
}
