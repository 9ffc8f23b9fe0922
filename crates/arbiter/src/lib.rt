// The arbiter of a bus: ten requesters in two groups, and two rings that turn. It keeps nothing: a call is given the state and gives
// the state after it.
#![tactic(auto)]

ghost use Rattle.std.specs.Prelude.{◌≡◌, ◌<◌};
ghost use Rattle.arbiter.specs.definitions.Rings.{high_ring, low_ring};
ghost use Rattle.arbiter.specs.definitions.Arbiter.{is_state, refused, step, turn_of, arbitrate};

pub mod ring;

use rack::refusal::Refusal;
use ring::{LOW_PLACE, MEMBERS, NONE, has, high_requests, low_requests, next_after};

// What each ring granted last: a member's number, `LOW_PLACE` in the high ring, or `NONE` yet.
#[derive(Clone, Copy)]
pub struct State {
    pub high: u8,
    pub low: u8,
}

// What a step gives: the member granted, if there is one, and the state after.
#[derive(Clone, Copy)]
pub struct Turn {
    pub member: Option<u8>,
    pub after: State,
}

fn is_high_state(mask: u16, last: u8) -> bool
    ensures { result ≡ is_state (high_ring mask) last }
{
    if last < MEMBERS {
        return has(mask, last as usize);
    }
    (last == LOW_PLACE) | (last == NONE)
}

fn is_low_state(mask: u16, last: u8) -> bool
    ensures { result ≡ is_state (low_ring mask) last }
{
    if last < MEMBERS {
        return !has(mask, last as usize);
    }
    last == NONE
}

// Refusal 20: a bit above 9, or a state that names a place its ring lacks.
fn refused(mask: u16, requests: u16, s: State) -> bool
    ensures { result ≡ refused mask requests s }
{
    let high = is_high_state(mask, s.high);
    let low = is_low_state(mask, s.low);
    (1024 <= mask) | (1024 <= requests) | !high | !low
}

// One request set. A grant to a high member leaves the low ring as it was.
fn step(mask: u16, requests: u16, s: State) -> Turn
    requires { requests < 1024 }
    ensures { result ≡ turn_of (step mask requests s) }
{
    let low = next_after(low_requests(mask, requests), s.low);
    let Some(place) = next_after(high_requests(mask, requests, low.is_some()), s.high) else {
        return Turn {
            member: None,
            after: s,
        };
    };
    if place == LOW_PLACE {
        return Turn {
            member: low,
            after: State {
                high: LOW_PLACE,
                low: low.unwrap_or(NONE),
            },
        };
    }
    Turn {
        member: Some(place),
        after: State {
            high: place,
            low: s.low,
        },
    }
}

// One set of requests: who is granted the bus, and the state after; or refusal 20.
pub fn arbitrate(mask: u16, requests: u16, s: State) -> Result<Turn, Refusal>
    ensures { result ≡ arbitrate mask requests s }
{
    if refused(mask, requests, s) {
        return Err(Refusal::BadArbitration);
    }
    Ok(step(mask, requests, s))
}
