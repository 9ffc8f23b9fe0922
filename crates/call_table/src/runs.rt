// The run of an event, and of a check, over the table of a rack.
ghost use Rattle.register_image.specs.definitions.Image.{gives};
ghost use Rattle.register_image.specs.definitions.Lent.{tree_in, images_in};
ghost use Rattle.register_image.specs.definitions.LentMut.{tree_at, images_at, Same};
ghost use Rattle.std.specs.Prelude.{◌≡◌};
ghost use Rattle.seat.specs.definitions.Grants.{acting};
ghost use Rattle.seat.specs.definitions.Table.{grants_of};
ghost use Rattle.call_table.specs.definitions.Call.{numbered, run_in, check_in};

use crate::refusal::{event_refusal, refused_by, seat_refusal};
use event_run::Answer;
use event_run::run::answer_event;
use file_record::Event;
use rack::refusal::Refusal;
use register_image::{Registers, RegistersMut};
use seat::table::GrantTable;

// An event of the acting seat over a table: refused by 6 to 15 or 18, or run.
pub fn run_on(
    registers: &mut RegistersMut,
    grants: &GrantTable,
    seat: u8,
    e: Event,
) -> Result<Answer, Refusal>
    ensures leaves { gives (numbered result) (images_at registers.new) ≡ run_in (tree_at registers.old) (acting (grants_of grants.now) seat) (images_at registers.old) e }
    ensures same { Same registers.old registers.new }
{
    let field = event_refusal(registers.table, e);
    let unknown = seat_refusal(grants, seat, e);
    refused_by(&registers.lent(), grants, field, unknown)?;
    Ok(answer_event(registers, grants, seat, e))
}

// The check over a table: refused by 6 to 12, 18 and 14, or made.
pub fn check_on(registers: &Registers, grants: &GrantTable) -> Result<Answer, Refusal>
    ensures { numbered result ≡ check_in (tree_in registers.now) (grants_of grants.now) (images_in registers.now) }
{
    refused_by(registers, grants, Ok(()), Ok(()))?;
    let r = check_sweep::buses::check_rack(registers);
    Ok(Answer::Checked(r))
}
