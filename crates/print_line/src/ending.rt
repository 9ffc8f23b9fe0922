// The line of an access: the event number and how the access ended.
ghost use Rattle.std.specs.Prelude.{◌≡◌, ◌≤◌, length};
ghost use Rattle.print_line.specs.definitions.Line.{outcome_word, ending_line};

use crate::Line;
use crate::field::begun;
use event_run::Ending;
use route_bus::Outcome;

#[tactic(auto, unfolding(crate::specs::definitions::Text::codes_of))]
fn outcome_word(outcome: Outcome) -> &'static [u8]
    ensures { (result.now ≡ outcome_word outcome) × (length result.now ≤ 6) }
{
    match outcome {
        Outcome::Abort => b"abort",
        Outcome::Done => b"done",
        Outcome::Target => b"target",
    }
}

#[tactic(auto, unfolding(crate::specs::definitions::Text::codes_of, crate::specs::definitions::Line::spaced, crate::specs::definitions::Line::ending_fields))]
pub fn ending_line(n: u32, crossings: u32, e: Ending) -> Line
    ensures { result ≡ ending_line n crossings e }
{
    match e {
        Ending::Data { value } => begun(n, b"data")
            .decimal_field(crossings)
            .hex_field(8, value as u64)
            .byte(b'\n'),
        Ending::Stored => begun(n, b"stored").decimal_field(crossings).byte(b'\n'),
        Ending::Owner {
            node,
            region,
            offset,
        } => begun(n, b"owner")
            .decimal_field(crossings)
            .decimal_field(node as u32)
            .decimal_field(region as u32)
            .hex_field(16, offset)
            .byte(b'\n'),
        Ending::Host { offset } => begun(n, b"host")
            .decimal_field(crossings)
            .hex_field(16, offset)
            .byte(b'\n'),
        Ending::Unclaimed { holder, outcome } => begun(n, b"unclaimed")
            .decimal_field(crossings)
            .decimal_field(holder as u32)
            .word_field(outcome_word(outcome))
            .byte(b'\n'),
        Ending::Clash {
            holder,
            first,
            second,
        } => begun(n, b"clash")
            .decimal_field(crossings)
            .decimal_field(holder as u32)
            .decimal_field(first as u32)
            .decimal_field(second as u32)
            .byte(b'\n'),
        Ending::Special { holder } => begun(n, b"special")
            .decimal_field(crossings)
            .decimal_field(holder as u32)
            .byte(b'\n'),
        Ending::Silent => begun(n, b"silent").byte(b'\n'),
        Ending::Denied => begun(n, b"denied").decimal_field(crossings).byte(b'\n'),
    }
}
