// What the classroom screen asks for besides: registers at reset, and the ends of windows and regions.
ghost use Rattle.std.specs.Prelude.{◌≡◌};
ghost use Rattle.register_image.specs.definitions.Image.{images};
ghost use Rattle.call_numbers.specs.definitions.Numbers.{zeros};
ghost use Rattle.call_numbers.specs.definitions.Called.{called};
ghost use Rattle.muzgante.specs.definitions.Called.{rack_window, rack_reset};

use call_numbers::{put_ends, refuse};
use call_table::refusal::numbered;
use file_load::load_alone;
use rack::refusal::Refusal;
use register_image::{Registers, RegistersMut};

// Both images filled with their reset values. Returns 0, or the refusal's number with both images untouched.
pub fn rack_reset(rack: &[u8], bridges: &mut [u8], devices: &mut [u8]) -> u8
    ensures { called result zeros bridges.new devices.new ≡ rack_reset rack.now (images bridges.old devices.old) }
{
    let loaded = load_alone(rack);
    let l = match &loaded {
        Ok(l) => l,
        Err(r) => return u8::from(r.refusal),
    };
    let mut registers = RegistersMut {
        table: &l.table,
        bridges,
        devices,
    };
    if registers.lent().lengths_wrong() {
        return u8::from(Refusal::WrongLength);
    }
    if seat::table::is_wrong(&l.grants) {
        return u8::from(Refusal::BadSeatRecord);
    }
    registers.reset_images();
    0
}

// Both ends of window k of a bridge (0 memory, 1 prefetchable, 2 I/O) or of region k of a device: 1, first, last; 0 where it is empty.
// Returns 0, or the refusal's number with `answer` all 0.
pub fn rack_window<'a>(
    rack: &[u8],
    bridges: &'a [u8],
    devices: &'a [u8],
    node: u8,
    k: u8,
    answer: &mut [u64; 8],
) -> u8
    ensures { called result answer.new bridges.now devices.now ≡ rack_window rack.now (images bridges.now devices.now) node k }
{
    let loaded = load_alone(rack);
    let l = match &loaded {
        Ok(l) => l,
        Err(r) => return refuse(answer, u8::from(r.refusal)),
    };
    let registers = Registers {
        table: &l.table,
        bridges,
        devices,
    };
    let e = call_node::ends_on(&registers, &l.grants, node, k);
    put_ends(answer, numbered(e))
}
