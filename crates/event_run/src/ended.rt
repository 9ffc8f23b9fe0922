// What an access comes to once its route is known: the register that it reached is read or written here.
ghost use Rattle.register_image.specs.definitions.Lent.{tree_in, images_in};
ghost use Rattle.register_image.specs.definitions.LentMut.{tree_at, images_at, Same};
ghost use Rattle.register_image.specs.definitions.Image.{gives};
ghost use Rattle.std.specs.Prelude.{◌≡◌};
ghost use Rattle.seat.specs.definitions.Grants.{acting};
ghost use Rattle.seat.specs.definitions.Table.{grants_of};
ghost use Rattle.register_header.specs.definitions.Register.{read_register};
ghost use Rattle.register_image.specs.definitions.Image.{view};
ghost use Rattle.event_run.specs.definitions.Run.{register_of, reached, ended_at};

use crate::{Answer, Ending};
use register_image::{Registers, RegistersMut};
use route_bus::{Access, End};
use seat::table::GrantTable;

fn read_of(registers: &Registers, g: u8, register: u8) -> u32
    ensures { result ≡ read_register (view (tree_in registers.now) (images_in registers.now) g) register }
{
    let part = registers.view(g);
    register_header::register::read_register(part, register)
}

// A register of node g read or written.
fn register_of(registers: &mut RegistersMut, x: Access, crossings: u32, g: u8) -> Answer
    ensures leaves { gives result (images_at registers.new) ≡ register_of (tree_at registers.old) (images_at registers.old) x crossings g }
    ensures same { Same registers.old registers.new }
{
    if x.write {
        bus_reset::store::store_node(registers, g, x.register, x.enables, x.data);
        return Answer::Ended {
            crossings,
            ending: Ending::Stored,
        };
    }
    let value = read_of(&registers.lent(), g, x.register);
    Answer::Ended {
        crossings,
        ending: Ending::Data { value },
    }
}

// Node g is reached: a write outside the grant of the acting seat is denied.
fn reached(
    registers: &mut RegistersMut,
    grants: &GrantTable,
    seat: u8,
    x: Access,
    crossings: u32,
    g: u8,
) -> Answer
    ensures leaves { gives result (images_at registers.new) ≡ reached (tree_at registers.old) (acting (grants_of grants.now) seat) (images_at registers.old) x crossings g }
    ensures same { Same registers.old registers.new }
{
    let may = seat::table::may_write(grants, seat, g, x.register);
    if x.write & !may {
        return Answer::Ended {
            crossings,
            ending: Ending::Denied,
        };
    }
    register_of(registers, x, crossings, g)
}

// The answer to an access whose route ended there.
pub(crate) fn ended_at(
    registers: &mut RegistersMut,
    grants: &GrantTable,
    seat: u8,
    x: Access,
    crossings: u32,
    end: End,
) -> Answer
    ensures leaves { gives result (images_at registers.new) ≡ ended_at (tree_at registers.old) (acting (grants_of grants.now) seat) (images_at registers.old) x crossings end }
    ensures same { Same registers.old registers.new }
{
    let ending = match end {
        End::Node(g) => return reached(registers, grants, seat, x, crossings, g),
        End::Owner {
            node,
            region,
            offset,
        } => Ending::Owner {
            node,
            region,
            offset,
        },
        End::Host { offset } => Ending::Host { offset },
        End::Unclaimed { holder, outcome } => Ending::Unclaimed { holder, outcome },
        End::Clash {
            holder,
            first,
            second,
        } => Ending::Clash {
            holder,
            first,
            second,
        },
        End::Special { holder } => Ending::Special { holder },
        End::Silent => Ending::Silent,
    };
    Answer::Ended { crossings, ending }
}
