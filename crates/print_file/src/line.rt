// The line of one event, and the cursor after it.
ghost use Rattle.register_image.specs.definitions.LentMut.{tree_at, images_at, Same};
ghost use Rattle.std.specs.Prelude.{◌≡◌, ◌+◌, ◌≤◌};
ghost use Rattle.rack.specs.definitions.Refusal.{rack_refusal};
ghost use Rattle.seat.specs.definitions.Table.{grants_of};
ghost use Rattle.print_file.specs.definitions.Output.{answer_line};
ghost use Rattle.print_file.specs.definitions.Filling.{past, ran_at, line_at};

use crate::Cursor;
use event_run::Answer;
use event_run::run::answer_event;
use file_record::events::{event_in, seat_after};
use file_record::record::size_of;
use print_line::Line;
use print_line::acting::seat_line;
use print_line::ending::ending_line;
use print_line::report::report_line;
use register_header::register::byte_at;
use register_image::RegistersMut;
use seat::table::GrantTable;

fn answer_line(n: u32, a: Answer) -> Line
    ensures { result ≡ answer_line n a }
{
    match a {
        Answer::Ended { crossings, ending } => ending_line(n, crossings, ending),
        Answer::Checked(r) => report_line(n, r),
        Answer::Seated(seat) => seat_line(n, seat),
    }
}

// The event at a cursor is run; its line.
pub(crate) fn run_line(
    file: &[u8],
    registers: &mut RegistersMut,
    grants: &GrantTable,
    at: Cursor,
) -> Line
    requires { (rack_refusal (tree_at registers.old) ≡ 0) × (at.offset ≤ 65536) }
    ensures leaves { (result ≡ line_at (tree_at registers.old) (grants_of grants.now) file.now at (images_at registers.old)) × (images_at registers.new ≡ (ran_at (tree_at registers.old) (grants_of grants.now) file.now at (images_at registers.old)).after) }
    ensures same { Same registers.old registers.new }
{
    let e = event_in(file, at.offset);
    let a = answer_event(registers, grants, at.seat, e);
    answer_line(at.number, a)
}

// The cursor after the event at a cursor.
pub(crate) fn past(file: &[u8], at: Cursor) -> Cursor
    requires { (at.offset ≤ 65536) × (at.number ≤ at.offset + 1) }
    ensures { result ≡ past file.now at }
{
    Cursor {
        offset: at.offset + size_of(byte_at(file, at.offset)),
        number: at.number + 1,
        seat: seat_after(at.seat, event_in(file, at.offset)),
    }
}
