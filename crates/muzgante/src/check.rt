// The check, for C.
ghost use Rattle.std.specs.Prelude.{◌≡◌};
ghost use Rattle.register_image.specs.definitions.Image.{images};
ghost use Rattle.call_numbers.specs.definitions.Called.{called};
ghost use Rattle.muzgante.specs.definitions.Called.{rack_check};

use call_numbers::{put_reply, refuse};
use call_table::refusal::numbered;
use file_load::load_alone;
use register_image::Registers;

// The check of a rack with its registers. Returns 0, or the refusal's number with `answer` all 0.
pub fn rack_check<'a>(
    rack: &[u8],
    bridges: &'a [u8],
    devices: &'a [u8],
    answer: &mut [u64; 8],
) -> u8
    ensures { called result answer.new bridges.now devices.now ≡ rack_check rack.now (images bridges.now devices.now) }
{
    let loaded = load_alone(rack);
    let l = match &loaded {
        Ok(l) => l,
        Err(r) => return refuse(answer, u8::from(r.refusal)),
    };
    let registers = Registers {
        table: &l.table,
        bridges,
        devices,
    };
    let r = call_table::runs::check_on(&registers, &l.grants);
    put_reply(answer, numbered(r))
}
