// The line of a check: the event number and what the check says.
ghost use Rattle.std.specs.Prelude.{◌≡◌, ◌≤◌, length};
ghost use Rattle.print_line.specs.definitions.Line.{space_word, report_line};

use crate::Line;
use crate::field::begun;
use check_search::{Fault, Report};
use claim_agent::Space;

#[tactic(auto, unfolding(crate::specs::definitions::Text::codes_of))]
fn space_word(space: Space) -> &'static [u8]
    ensures { (result.now ≡ space_word space) × (length result.now ≤ 6) }
{
    match space {
        Space::Memory => b"memory",
        Space::Io => b"io",
        Space::Configuration => b"config",
    }
}

#[tactic(auto, unfolding(crate::specs::definitions::Text::codes_of, crate::specs::definitions::Line::spaced, crate::specs::definitions::Line::report_fields))]
pub fn report_line(n: u32, r: Report) -> Line
    ensures { result ≡ report_line n r }
{
    match r {
        Ok(()) => begun(n, b"pass").byte(b'\n'),
        Err(
            Fault {
                holder,
                space,
                value,
                driver,
                first,
                second,
            },
        ) => begun(n, b"fault")
            .decimal_field(holder as u32)
            .word_field(space_word(space))
            .hex_field(16, value)
            .decimal_field(driver as u32)
            .decimal_field(first as u32)
            .decimal_field(second as u32)
            .byte(b'\n'),
    }
}
