// The event run, for C.
ghost use Rattle.std.specs.Prelude.{◌≡◌};
ghost use Rattle.register_image.specs.definitions.Image.{images};
ghost use Rattle.call_numbers.specs.definitions.Called.{called};
ghost use Rattle.muzgante.specs.definitions.Called.{rack_run};

use call_numbers::{put_reply, refuse};
use call_table::refusal::numbered;
use file_load::load_alone;
use file_record::events::{event_bytes, event_in};
use register_image::RegistersMut;

// One event of a rack on its registers, by the acting seat. Returns 0, or the refusal's number with `answer` all 0 and both images untouched.
pub fn rack_run(
    rack: &[u8],
    seat: u8,
    event: &[u8],
    bridges: &mut [u8],
    devices: &mut [u8],
    answer: &mut [u64; 8],
) -> u8
    ensures { called result answer.new bridges.new devices.new ≡ rack_run rack.now seat event.now (images bridges.old devices.old) }
{
    let loaded = load_alone(rack);
    let l = match &loaded {
        Ok(l) => l,
        Err(r) => return refuse(answer, u8::from(r.refusal)),
    };
    if let Err(refusal) = event_bytes(event) {
        return refuse(answer, u8::from(refusal));
    }
    let mut registers = RegistersMut {
        table: &l.table,
        bridges,
        devices,
    };
    let e = event_in(event, 0);
    let r = call_table::runs::run_on(&mut registers, &l.grants, seat, e);
    put_reply(answer, numbered(r))
}
