// What the benchmarks call, over a table and two images: one memory read, and checks.
#![tactic(auto)]

ghost use Rattle.std.specs.Prelude.{◌≡◌};
ghost use Rattle.rack.specs.definitions.Refusal.{rack_refusal};
ghost use Rattle.rack.specs.definitions.Table.{tree_of};
ghost use Rattle.register_image.specs.definitions.Image.{images};
ghost use Rattle.register_image.specs.definitions.Lent.{tree_in, images_in};
ghost use Rattle.check_search.specs.definitions.Check.{check};
ghost use Rattle.route.specs.definitions.Route.{access};
ghost use Rattle.bench.specs.definitions.Shown.{shown_of, reading, value_of, check_rounds};

use check_search::Report;
use claim_agent::Space;
use rack::table::Table;
use register_image::{Registers, RegistersMut};
use route_bus::{Access, End, Route};

// The crossings of a route, plus 1000 times the owner's number plus one where it has an owner.
fn shown_of(r: Route) -> u64
    ensures { result ≡ shown_of r.crossings r.end }
{
    let crossings = r.crossings as u64;
    match r.end {
        End::Owner { node, .. } => crossings + 1000 * (node as u64 + 1),
        _ => crossings,
    }
}

fn reading_at(address: u64) -> Access
    ensures { result ≡ reading address }
{
    Access {
        space: Space::Memory,
        write: false,
        address,
        devfn: 0,
        register: 0,
        enables: 0,
        data: 0,
    }
}

// A memory read: its crossings, plus 1000 times the owner's number plus one where it has an owner.
#[unsafe(no_mangle)]
pub extern "C" fn bench_route(
    table: &Table,
    bridges: &mut [u8],
    devices: &mut [u8],
    initiator: u8,
    address: u64,
) -> u64
    ensures { (result ≡ shown_of (access (tree_of table.now) (images bridges.old devices.old) (reading address) initiator).answer.crossings (access (tree_of table.now) (images bridges.old devices.old) (reading address) initiator).answer.end) × (images bridges.new devices.new ≡ (access (tree_of table.now) (images bridges.old devices.old) (reading address) initiator).after) }
{
    let mut registers = RegistersMut {
        table,
        bridges,
        devices,
    };
    shown_of(route::route::route_access(&mut registers, reading_at(address), initiator))
}

// Half of a fault's value, plus one, so that it fits; 0 for a pass.
fn value_of(r: Report) -> u64
    ensures { result ≡ value_of r }
{
    match r {
        Ok(()) => 0,
        Err(f) => f.value / 2 + 1,
    }
}

fn checked(registers: &Registers) -> u64
    requires { rack_refusal (tree_in registers.now) ≡ 0 }
    ensures { result ≡ value_of (check (tree_in registers.now) (images_in registers.now)) }
{
    value_of(check_sweep::buses::check_rack(registers))
}

// The check of a rack that is accepted, as often as asked for; all ones where it is not accepted or not once asked for.
#[unsafe(no_mangle)]
pub extern "C" fn bench_check<'a>(
    table: &Table,
    bridges: &'a [u8],
    devices: &'a [u8],
    rounds: u8,
) -> u64
    ensures { result ≡ check_rounds (tree_of table.now) (images bridges.now devices.now) rounds }
{
    let mut shown: u64 = 0xFFFF_FFFF_FFFF_FFFF;
    if rack_refusals::refusal_of(table).is_err() {
        return shown;
    }
    let registers = Registers {
        table,
        bridges,
        devices,
    };
    for _ in 0..rounds {
        shown = checked(&registers);
    }
    shown
}
