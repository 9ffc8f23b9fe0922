// The run of an event over the table of an accepted rack.
ghost use Rattle.register_image.specs.definitions.LentMut.{tree_at, images_at, Same};
ghost use Rattle.register_image.specs.definitions.Image.{gives};
ghost use Rattle.std.specs.Prelude.{◌≡◌};
ghost use Rattle.rack.specs.definitions.Refusal.{rack_refusal};
ghost use Rattle.seat.specs.definitions.Grants.{acting};
ghost use Rattle.seat.specs.definitions.Table.{grants_of};
ghost use Rattle.event_run.specs.definitions.Run.{configuration, addressed, configured, accessed, event_run};

use crate::Answer;
use crate::ended::ended_at;
use claim_agent::Space;
use file_record::Event;
use register_image::RegistersMut;
use route::route::{route_access, route_configuration};
use route_bus::Access;
use seat::table::GrantTable;

fn configuration_of(write: bool, bus: u8, devfn: u8, register: u8, enables: u8, put: u32) -> Access
    ensures { result ≡ configuration write bus devfn register enables put }
{
    let space = Space::Configuration;
    Access {
        space,
        write,
        address: bus as u64,
        devfn,
        register,
        enables,
        data: put,
    }
}

fn addressed_at(space: Space, direction: u8, address: u64) -> Access
    ensures { result ≡ addressed space direction address }
{
    Access {
        space,
        write: direction == 1,
        address,
        devfn: 0,
        register: 0,
        enables: 0,
        data: 0,
    }
}

// A configuration access is routed and served.
fn configured_by(registers: &mut RegistersMut, grants: &GrantTable, seat: u8, x: Access) -> Answer
    ensures leaves { gives result (images_at registers.new) ≡ configured (tree_at registers.old) (acting (grants_of grants.now) seat) (images_at registers.old) x }
    ensures same { Same registers.old registers.new }
{
    let r = route_configuration(registers, x);
    let end = r.end;
    ended_at(registers, grants, seat, x, r.crossings, end)
}

// A memory or I/O access is routed from its initiator.
fn accessed_by(
    registers: &mut RegistersMut,
    grants: &GrantTable,
    seat: u8,
    x: Access,
    initiator: u8,
) -> Answer
    ensures leaves { gives result (images_at registers.new) ≡ accessed (tree_at registers.old) (acting (grants_of grants.now) seat) (images_at registers.old) x initiator }
    ensures same { Same registers.old registers.new }
{
    let r = route_access(registers, x, initiator);
    let end = r.end;
    ended_at(registers, grants, seat, x, r.crossings, end)
}

// The answer to an event of the acting seat, and what it leaves in both images.
pub fn answer_event(registers: &mut RegistersMut, grants: &GrantTable, seat: u8, e: Event) -> Answer
    requires { rack_refusal (tree_at registers.old) ≡ 0 }
    ensures leaves { gives result (images_at registers.new) ≡ event_run (tree_at registers.old) (acting (grants_of grants.now) seat) (images_at registers.old) e }
    ensures same { Same registers.old registers.new }
{
    match e {
        Event::Write {
            bus,
            devfn,
            register,
            enables,
            put,
        } => {
            let x = configuration_of(true, bus, devfn, register, enables, put);
            configured_by(registers, grants, seat, x)
        }
        Event::Read {
            bus,
            devfn,
            register,
        } => {
            let x = configuration_of(false, bus, devfn, register, 0, 0);
            configured_by(registers, grants, seat, x)
        }
        Event::Memory {
            initiator,
            direction,
            address,
        } => {
            let x = addressed_at(Space::Memory, direction, address);
            accessed_by(registers, grants, seat, x, initiator)
        }
        Event::Io {
            initiator,
            direction,
            address,
        } => {
            let x = addressed_at(Space::Io, direction, address as u64);
            accessed_by(registers, grants, seat, x, initiator)
        }
        Event::Check => Answer::Checked(check_sweep::buses::check_rack(&registers.lent())),
        Event::Seat { seat: next } => Answer::Seated(next),
    }
}
