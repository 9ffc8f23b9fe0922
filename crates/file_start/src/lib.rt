// The registers that a run of a file starts from: reset, and then those of its register records.
#![tactic(auto)]

ghost use Rattle.register_image.specs.definitions.LentMut.{tree_at, images_at, Same};
ghost use Rattle.std.specs.Prelude.{◌≡◌, ◌≤◌, length};
ghost use Rattle.file_record.specs.definitions.Start.{set_from, start_from};

use file_record::record::registers_in;
use register_header::register::byte_at;
use register_image::RegistersMut;

// Over both images the registers of the records from an offset up to `end`.
fn set_records(file: &[u8], registers: &mut RegistersMut, first: usize, end: usize)
    requires { (first ≤ 65536) × (end ≤ length file.now) × (length file.now ≤ 65536) }
    ensures leaves { images_at registers.new ≡ set_from (length file.now) file.now (tree_at registers.old) end first (images_at registers.old) }
    ensures same { Same registers.old registers.new }
{
    for i in 0..end.saturating_sub(first) / 66 {
        let o = first + 66 * i;
        let node = byte_at(file, o + 1);
        registers.set_node(node, registers_in(file, o));
    }
}

// Both images as a run of a file starts from them; its register records stand from `first` up to `end`.
pub fn start_images(file: &[u8], registers: &mut RegistersMut, first: usize, end: usize)
    requires { (first ≤ 65536) × (end ≤ length file.now) × (length file.now ≤ 65536) }
    ensures leaves { images_at registers.new ≡ start_from file.now (tree_at registers.old) first end (images_at registers.old) }
    ensures same { Same registers.old registers.new }
{
    registers.reset_images();
    set_records(file, registers, first, end);
}
