// Refusals 6 to 15 and 18 of a call, in their order.
ghost use Rattle.register_image.specs.definitions.Lent.{tree_in, images_in};
ghost use Rattle.std.specs.Prelude.{◌≡◌, ◌≢◌, ℕ, IfErr};
ghost use Rattle.rack.specs.definitions.First.{◌when◌};
ghost use Rattle.rack.specs.definitions.Refused.{number_of};
ghost use Rattle.rack.specs.definitions.Table.{tree_of};
ghost use Rattle.seat.specs.definitions.Grants.{acting};
ghost use Rattle.seat.specs.definitions.Table.{grants_of};
ghost use Rattle.call_table.specs.definitions.Call.{numbered, Numbers, number_by, refusal_by, read_refusal, store_refusal, view_refusal, region_refusal, window_refusal, event_refusal, seat_refusal};

use bus_reset::agreement::image_refusal;
use file_record::Event;
use file_record::events::{event_unknown, event_wrong};
use rack::refusal::Refusal;
use rack::table::{Table, count_of, is_bridge_at};
use rack_refusals::refusal_of;
use register_image::Registers;
use seat::table::{GrantTable, is_wrong, unknown_seat};

// What a call gives, with its refusal as a number.
pub fn numbered<A>(r: Result<A, Refusal>) -> Result<A, u8>
    ensures { result ≡ numbered r }
{
    r.map_err(u8::from)
}

// Whether a call is refused; `field` is 13 by what it is given, `seat` 15 by who acts. Each is told as the caller's error.
pub fn refusal_by<E: From<Refusal> + Drop>(
    registers: &Registers,
    grants: &GrantTable,
    field: Result<(), E>,
    seat: Result<(), E>,
) -> Result<(), E>
    ensures { (n : E → ℕ) → Numbers E.from_gives n → IfErr field (λ e. n e ≢ 0) → number_by n result ≡ refusal_by (tree_in registers.now) (grants_of grants.now) (images_in registers.now) (number_by n field) (number_by n seat) }
{
    refusal_of(registers.table)?;
    image_refusal(registers)?;
    field?;
    if is_wrong(grants) {
        return Err(E::from(Refusal::BadSeatRecord));
    }
    seat
}

// The same of a refusal.
pub fn refused_by(
    registers: &Registers,
    grants: &GrantTable,
    field: Result<(), Refusal>,
    seat: Result<(), Refusal>,
) -> Result<(), Refusal>
    ensures { number_of result ≡ refusal_by (tree_in registers.now) (grants_of grants.now) (images_in registers.now) (number_of field) (number_of seat) }
{
    refusal_by(registers, grants, field, seat)
}

// 13 of a field.
fn field_refusal(wrong: bool) -> Result<(), Refusal>
    ensures { number_of result ≡ 13 when wrong }
{
    if wrong {
        Err(Refusal::BadField)
    } else {
        Ok(())
    }
}

// 13 of a register read.
pub fn read_refusal(table: &Table, i: u8, register: u8) -> Result<(), Refusal>
    ensures { number_of result ≡ read_refusal (tree_of table.now) i register }
{
    let count = count_of(table);
    field_refusal((count <= i) | !(register % 4 == 0))
}

// 13 of a register write.
pub fn store_refusal(table: &Table, i: u8, register: u8, enables: u8) -> Result<(), Refusal>
    ensures { number_of result ≡ store_refusal (tree_of table.now) i register enables }
{
    let count = count_of(table);
    field_refusal((count <= i) | (!(register % 4 == 0) | (15 < enables)))
}

// 13 of a view.
pub fn view_refusal(table: &Table, i: u8) -> Result<(), Refusal>
    ensures { number_of result ≡ view_refusal (tree_of table.now) i }
{
    let count = count_of(table);
    field_refusal(count <= i)
}

// 13 of a region: a missing node, a bridge, a fourth region.
pub fn region_refusal(table: &Table, i: u8, r: u8) -> Result<(), Refusal>
    ensures { number_of result ≡ region_refusal (tree_of table.now) i r }
{
    let count = count_of(table);
    let bridge = is_bridge_at(table, i);
    field_refusal((count <= i) | (bridge | (2 < r)))
}

// 13 of a window or region.
pub fn window_refusal(table: &Table, i: u8, k: u8) -> Result<(), Refusal>
    ensures { number_of result ≡ window_refusal (tree_of table.now) i k }
{
    let count = count_of(table);
    field_refusal((count <= i) | (2 < k))
}

// 13 of an event.
pub(crate) fn event_refusal(table: &Table, e: Event) -> Result<(), Refusal>
    ensures { number_of result ≡ event_refusal (tree_of table.now) e }
{
    field_refusal(event_wrong(table, e))
}

// 15 of the seat that acts, and of one that the event names.
pub(crate) fn seat_refusal(grants: &GrantTable, seat: u8, e: Event) -> Result<(), Refusal>
    ensures { number_of result ≡ seat_refusal (acting (grants_of grants.now) seat) e }
{
    let told = unknown_seat(grants, seat);
    let named = event_unknown(grants, e);
    if told | named {
        Err(Refusal::UnknownSeat)
    } else {
        Ok(())
    }
}
