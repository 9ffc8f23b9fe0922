// The line of a seat event: the event number and who acts from then on.
ghost use Rattle.std.specs.Prelude.{◌≡◌};
ghost use Rattle.print_line.specs.definitions.Line.{seat_line};

use crate::Line;
use crate::field::begun;

#[tactic(auto, unfolding(crate::specs::definitions::Text::codes_of, crate::specs::definitions::Line::spaced))]
pub fn seat_line(n: u32, seat: u8) -> Line
    ensures { result ≡ seat_line n seat }
{
    begun(n, b"seat").decimal_field(seat as u32).byte(b'\n')
}
