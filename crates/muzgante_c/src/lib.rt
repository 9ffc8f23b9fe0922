// The archive for C: the calls of `muzgante` under their names of include/rack.h, with the same contracts.
#![tactic(auto)]

ghost use Rattle.std.specs.Prelude.{◌≡◌};
ghost use Rattle.register_image.specs.definitions.Image.{images};
ghost use Rattle.rack.specs.definitions.Refused.{number_of};
ghost use Rattle.call_numbers.specs.definitions.Numbers.{zeros, arbitration_numbers};
ghost use Rattle.call_numbers.specs.definitions.Called.{called};
ghost use Rattle.call_file.specs.definitions.Filed as filed;
ghost use Rattle.muzgante.specs.definitions.Called as call;

// One event of a rack on its registers, by the acting seat. Returns 0, or the refusal's number with `answer` all 0 and both images untouched.
#[unsafe(no_mangle)]
pub extern "C" fn rack_run(
    rack: &[u8],
    seat: u8,
    event: &[u8],
    bridges: &mut [u8],
    devices: &mut [u8],
    answer: &mut [u64; 8],
) -> u8
    ensures { called result answer.new bridges.new devices.new ≡ call.rack_run rack.now seat event.now (images bridges.old devices.old) }
{
    muzgante::run::rack_run(rack, seat, event, bridges, devices, answer)
}

// The check of a rack with its registers. Returns 0, or the refusal's number with `answer` all 0.
#[unsafe(no_mangle)]
pub extern "C" fn rack_check<'a>(
    rack: &[u8],
    bridges: &'a [u8],
    devices: &'a [u8],
    answer: &mut [u64; 8],
) -> u8
    ensures { called result answer.new bridges.now devices.now ≡ call.rack_check rack.now (images bridges.now devices.now) }
{
    muzgante::check::rack_check(rack, bridges, devices, answer)
}

// Both images filled with their reset values. Returns 0, or the refusal's number with both images untouched.
#[unsafe(no_mangle)]
pub extern "C" fn rack_reset(rack: &[u8], bridges: &mut [u8], devices: &mut [u8]) -> u8
    ensures { called result zeros bridges.new devices.new ≡ call.rack_reset rack.now (images bridges.old devices.old) }
{
    muzgante::screen::rack_reset(rack, bridges, devices)
}

// Both ends of window k of a bridge (0 memory, 1 prefetchable, 2 I/O) or of region k of a device: 1, first, last; 0 where it is empty.
// Returns 0, or the refusal's number with `answer` all 0.
#[unsafe(no_mangle)]
pub extern "C" fn rack_window<'a>(
    rack: &[u8],
    bridges: &'a [u8],
    devices: &'a [u8],
    node: u8,
    k: u8,
    answer: &mut [u64; 8],
) -> u8
    ensures { called result answer.new bridges.now devices.now ≡ call.rack_window rack.now (images bridges.now devices.now) node k }
{
    muzgante::screen::rack_window(rack, bridges, devices, node, k, answer)
}

// The file of a rack with its registers, into a buffer; its length is the answer. Returns 0, or the refusal's number with `answer` all 0 and the
// buffer untouched.
#[unsafe(no_mangle)]
pub extern "C" fn rack_save<'a>(
    rack: &[u8],
    bridges: &'a [u8],
    devices: &'a [u8],
    buffer: &mut [u8],
    answer: &mut [u64; 8],
) -> u8
    ensures { filed.filed result answer.new buffer.new ≡ filed.rack_save rack.now (images bridges.now devices.now) buffer.old }
{
    muzgante::file::rack_save(rack, bridges, devices, buffer, answer)
}

// Both images as a run of a whole file starts from them. The answer is how many bytes stand before its first register record or event, and
// both node counts. Returns 0, or the refusal's number with both images untouched and `answer` all 0, but for both counts where an image has the
// wrong length.
#[unsafe(no_mangle)]
pub extern "C" fn rack_open(
    file: &[u8],
    bridges: &mut [u8],
    devices: &mut [u8],
    answer: &mut [u64; 8],
) -> u8
    ensures { called result answer.new bridges.new devices.new ≡ filed.rack_open file.now (images bridges.old devices.old) }
{
    muzgante::file::rack_open(file, bridges, devices, answer)
}

// One request set on a bus: who is granted, and the state after. Returns 0, or 20 with `answer` all 0.
#[unsafe(no_mangle)]
pub extern "C" fn rack_grant(
    mask: u16,
    requests: u16,
    high: u8,
    low: u8,
    answer: &mut [u64; 8],
) -> u8
    ensures { (result ≡ number_of (call.rack_grant mask requests high low)) × (answer.new ≡ arbitration_numbers (call.rack_grant mask requests high low)) }
{
    muzgante::share::rack_grant(mask, requests, high, low, answer)
}
