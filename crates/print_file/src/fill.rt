// Whole lines into a buffer, from a cursor on, as long as the longest line has room.
ghost use Rattle.register_image.specs.definitions.LentMut.{tree_at, images_at, Same};
ghost use Rattle.std.specs.Prelude.{◌≡◌, ◌+◌, ◌≤◌, length};
ghost use Rattle.rack.specs.definitions.Refusal.{rack_refusal};
ghost use Rattle.seat.specs.definitions.Table.{grants_of};
ghost use Rattle.print_file.specs.definitions.Filling.{part_of};
ghost use Rattle.print_file.specs.definitions.Fills.{Fills, Onward};

use crate::line::{past, run_line};
use crate::{Cursor, Filled};
use register_image::RegistersMut;
use seat::table::GrantTable;

// The part of the output of an accepted file from a cursor on that the buffer has room for; both images are then those of the next
// cursor.
pub fn fill(
    file: &[u8],
    registers: &mut RegistersMut,
    grants: &GrantTable,
    at: Cursor,
    out: &mut [u8],
) -> Filled
    requires { (rack_refusal (tree_at registers.old) ≡ 0) × (length file.now ≤ 65536) × (at.number ≤ at.offset + 1) }
    ensures fills { Fills result out.old out.new (images_at registers.new) (part_of (tree_at registers.old) (grants_of grants.now) file.now (length out.old) at (images_at registers.old)) }
    ensures onward { Onward file.now (length out.old) at result }
    ensures same { Same registers.old registers.new }
{
    let mut next = at;
    let mut len: usize = 0;
    loop {
        if (file.len() <= next.offset) | (out.len() - len < 96) {
            return Filled { len, next };
        }
        let line = run_line(file, registers, grants, next);
        let text = line.as_bytes();
        let end = len + text.len();
        out[len..end].copy_from_slice(text);
        len = end;
        next = past(file, next);
    }
}
