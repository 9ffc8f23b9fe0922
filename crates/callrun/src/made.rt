// The calls, each with its answer as eight numbers; what is returned is 0 or the refusal's number.
use crate::asked::Asked;
use arbiter::{State, arbitrate};
use call_numbers::{put_arbitration, put_ends, put_reply, put_value};
use call_open::{read_register, run_check, run_event, size_region, window_ends, write_register};
use call_table::refusal::numbered;
use file_record::events::event_in;
use rack::Rack;

// Operation 12: the mask is the lower half of the data, the request set the upper.
fn step_made(a: Asked, answer: &mut [u64; 8]) -> u8 {
    let mask = (a.put % 65536) as u16;
    let requests = (a.put / 65536) as u16;
    let s = State {
        high: a.node,
        low: a.index,
    };
    put_arbitration(answer, numbered(arbitrate(mask, requests, s)))
}

// A view gives no number: its part is empty where it is refused.
pub fn make(
    a: Asked,
    rack: Rack,
    event: &[u8],
    bridges: &mut [u8],
    devices: &mut [u8],
    answer: &mut [u64; 8],
) -> u8 {
    match a.operation {
        1 => put_value(
            answer,
            numbered(read_register(rack, bridges, devices, a.node, a.index)),
        ),
        2 => match write_register(rack, bridges, devices, a.node, a.index, a.enables, a.put) {
            Ok(()) => 0,
            Err(refusal) => u8::from(refusal),
        },
        4 => put_value(
            answer,
            numbered(size_region(rack, bridges, devices, a.node, a.index)),
        ),
        5 => put_ends(
            answer,
            numbered(window_ends(rack, bridges, devices, a.node, a.index)),
        ),
        6 => put_reply(
            answer,
            numbered(run_event(rack, bridges, devices, a.node, event_in(event, 0))),
        ),
        7 => put_reply(answer, numbered(run_check(rack, bridges, devices))),
        12 => step_made(a, answer),
        _ => 0,
    }
}
