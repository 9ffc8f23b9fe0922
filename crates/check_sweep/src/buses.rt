// The check of a rack: buses in order, and in each configuration, memory and I/O.
ghost use Rattle.register_image.specs.definitions.Lent.{tree_in, images_in};
ghost use Rattle.std.specs.Prelude.{◌≡◌, ◌≤◌, cond, length};
ghost use Rattle.rack.specs.definitions.Node.{is_bridge};
ghost use Rattle.rack.specs.definitions.Table.{node_at};
ghost use Rattle.rack.specs.definitions.Tree.{agents};
ghost use Rattle.rack.specs.definitions.Refusal.{rack_refusal};
ghost use Rattle.check_search.specs.definitions.Report.{Pass};
ghost use Rattle.check_search.specs.definitions.Check.{bus_report, check};
ghost use Rattle.check_search.specs.definitions.Gathered.{Gathered};

use crate::agents::{agent_count, agents_on};
use crate::sweep::sweep;
use check_search::Report;
use claim_agent::{Agent, Space};
use rack::table::{count_of, node_at};
use register_image::Registers;

// The three spaces of a bus.
fn spaces_report(registers: &Registers, bus: u8, gathered: &[Agent]) -> Report
    requires { (length gathered.now ≡ length (agents (tree_in registers.now) bus)) × Gathered (tree_in registers.now) (images_in registers.now) bus gathered.now }
    ensures { result ≡ bus_report (tree_in registers.now) (images_in registers.now) bus }
{
    sweep(registers, bus, gathered, Space::Configuration, 1, 255)?;
    sweep(
        registers,
        bus,
        gathered,
        Space::Memory,
        0,
        0xFFFF_FFFF_FFFF_FFFF,
    )?;
    sweep(registers, bus, gathered, Space::Io, 0, 0xFFFF_FFFF)
}

// One bus. Two agents cannot clash: a driver does not claim.
fn bus_report(registers: &Registers, bus: u8) -> Report
    requires { length (agents (tree_in registers.now) bus) ≤ 17 }
    ensures { result ≡ bus_report (tree_in registers.now) (images_in registers.now) bus }
{
    let n = agent_count(registers.table, bus);
    if n <= 2 {
        return Ok(());
    }
    let gathered = agents_on(registers, bus);
    spaces_report(registers, bus, &gathered[..n])
}

// The bus that a node holds: a bridge's.
fn held_report(registers: &Registers, i: u8) -> Report
    requires { length (agents (tree_in registers.now) i) ≤ 17 }
    ensures { result ≡ cond (is_bridge ((tree_in registers.now).node i).kind) (bus_report (tree_in registers.now) (images_in registers.now) i) Pass }
{
    if node_at(registers.table, i as usize).kind.is_bridge() {
        return bus_report(registers, i);
    }
    Ok(())
}

// The check of an accepted rack.
pub fn check_rack(registers: &Registers) -> Report
    requires { rack_refusal (tree_in registers.now) ≡ 0 }
    ensures { result ≡ check (tree_in registers.now) (images_in registers.now) }
{
    bus_report(registers, 255)?;
    let count = count_of(registers.table);
    for i in 0..count {
        held_report(registers, i)?;
    }
    Ok(())
}
