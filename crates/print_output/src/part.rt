// The next part of a file's output.
ghost use Rattle.register_image.specs.definitions.LentMut.{tree_at, images_at, Same};
ghost use Rattle.std.specs.Prelude.{◌≡◌, ◌++◌, ◌≤◌, length, take};
ghost use Rattle.seat.specs.definitions.Table.{grants_of};
ghost use Rattle.print_output.specs.definitions.Rest.{output_from};
ghost use Rattle.print_output.specs.definitions.Piece.{Ready, piece_of, Puts, Onward};

use crate::{Put, Rest};
use print_file::fill::fill;
use print_file::refused::put_refused;
use register_image::RegistersMut;
use seat::table::GrantTable;

// As much of what is left as the buffer has room for; both images are then those of what is left after it.
pub fn put_part(
    file: &[u8],
    registers: &mut RegistersMut,
    grants: &GrantTable,
    rest: Rest,
    out: &mut [u8],
) -> Put
    requires { Ready file.now (tree_at registers.old) rest × (96 ≤ length out.old) }
    ensures text { take result.len out.new ++ output_from (tree_at registers.old) (grants_of grants.now) file.now result.rest (images_at registers.new) ≡ output_from (tree_at registers.old) (grants_of grants.now) file.now rest (images_at registers.old) }
    ensures puts { Puts result out.old out.new (images_at registers.new) (piece_of (tree_at registers.old) (grants_of grants.now) file.now (length out.old) rest (images_at registers.old)) }
    ensures onward { Onward file.now (tree_at registers.old) (length out.old) rest result }
    ensures same { Same registers.old registers.new }
{
    match rest {
        Rest::Refused { number, offset } => {
            let len = put_refused(number, offset, out);
            Put {
                len,
                rest: Rest::Nothing,
            }
        }
        Rest::Events(at) => {
            let f = fill(file, registers, grants, at, out);
            Put {
                len: f.len,
                rest: Rest::Events(f.next),
            }
        }
        Rest::Nothing => Put {
            len: 0,
            rest: Rest::Nothing,
        },
    }
}
