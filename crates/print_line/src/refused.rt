// The one line of a refused input.
ghost use Rattle.std.specs.Prelude.{◌≡◌};
ghost use Rattle.print_line.specs.definitions.Line.{refused_line};

use crate::Line;

#[tactic(auto, unfolding(crate::specs::definitions::Text::codes_of, crate::specs::definitions::Line::spaced))]
pub fn refused_line(number: u8, offset: u32) -> Line
    ensures { result ≡ refused_line number offset }
{
    Line::new()
        .word(b"refused")
        .decimal_field(number as u32)
        .word_field(b"at")
        .decimal_field(offset)
        .byte(b'\n')
}
