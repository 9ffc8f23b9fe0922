// Rack files, for C: a rack with its registers saved, and a file opened.
ghost use Rattle.std.specs.Prelude.{◌≡◌};
ghost use Rattle.register_image.specs.definitions.Image.{images};
ghost use Rattle.call_numbers.specs.definitions.Called.{called};
ghost use Rattle.call_file.specs.definitions.Filed.{filed, rack_save, rack_open};

use call_file::{open_file, save_bytes};

// The file of a rack with its registers, into a buffer; its length is the answer. Returns 0, or the refusal's number with `answer` all 0 and the
// buffer untouched.
pub fn rack_save<'a>(
    rack: &[u8],
    bridges: &'a [u8],
    devices: &'a [u8],
    buffer: &mut [u8],
    answer: &mut [u64; 8],
) -> u8
    ensures { filed result answer.new buffer.new ≡ rack_save rack.now (images bridges.now devices.now) buffer.old }
{
    save_bytes(rack, bridges, devices, buffer, answer)
}

// Both images as a run of a whole file starts from them. The answer is how many bytes stand before its first register record or event, and
// both node counts. Returns 0, or the refusal's number with both images untouched and `answer` all 0, but for both counts where an image has the
// wrong length.
pub fn rack_open(file: &[u8], bridges: &mut [u8], devices: &mut [u8], answer: &mut [u64; 8]) -> u8
    ensures { called result answer.new bridges.new devices.new ≡ rack_open file.now (images bridges.old devices.old) }
{
    open_file(file, bridges, devices, answer)
}
