// Where the run of a file begins.
ghost use Rattle.register_image.specs.definitions.LentMut.{tree_at, images_at, Same};
ghost use Rattle.std.specs.Prelude.{◌≡◌, ◌≤◌, length};
ghost use Rattle.file_record.specs.definitions.Start.{start_from};
ghost use Rattle.print_file.specs.definitions.Output.{first_at};

use crate::Cursor;
use register_image::RegistersMut;

// Both images as the file's register records have them, which stand from `first` up to the events, all else at reset; and the first
// event, whose number is 1, as seat 0.
pub fn start(file: &[u8], registers: &mut RegistersMut, first: usize, offset: usize) -> Cursor
    requires { (first ≤ 65536) × (offset ≤ length file.now) × (length file.now ≤ 65536) }
    ensures leaves { (result ≡ first_at offset) × (images_at registers.new ≡ start_from file.now (tree_at registers.old) first offset (images_at registers.old)) }
    ensures same { Same registers.old registers.new }
{
    file_start::start_images(file, registers, first, offset);
    Cursor {
        offset,
        number: 1,
        seat: 0,
    }
}
