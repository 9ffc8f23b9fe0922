// The search in a ring. A set of places is a word with a bit for each; one search serves both rings.
ghost use Rattle.std.specs.Prelude.{◌≡◌, ◌<◌};
ghost use Rattle.arbiter.specs.definitions.Rings.{◌has◌, high_ring, low_ring, place_named};
ghost use Rattle.arbiter.specs.definitions.SetSearch.{Requesting, first_from, next_in};
ghost use Rattle.arbiter.specs.definitions.Arbiter.{asks};

// The members of a bus, 0 to 9.
pub const MEMBERS: u8 = 10;

// The place of the whole low group in the high ring.
pub const LOW_PLACE: u8 = 10;

// None yet, of a state.
pub const NONE: u8 = 15;

pub fn has(set: u16, place: usize) -> bool
    requires { place < 16 }
    ensures { result ≡ set has place }
{
    (set >> place) % 2 == 1
}

// The first place of a set from `from` on, up to the low place.
fn first_from(set: u16, from: usize) -> Option<u8>
    ensures { result ≡ place_named (first_from set from) }
{
    for place in from..11 {
        if has(set, place) {
            return Some(place as u8);
        }
    }
    None
}

// The next place of a set after the last one granted. It goes round, so that the last one is tried last; after `NONE`, which is above
// every place, it begins at 0.
pub fn next_after(set: u16, last: u8) -> Option<u8>
    ensures { result ≡ place_named (next_in set last) }
{
    first_from(set, last as usize + 1).or_else(|| first_from(set, 0))
}

// The low members that request.
pub fn low_requests(mask: u16, requests: u16) -> u16
    requires { requests < 1024 }
    ensures { Requesting result (low_ring mask) (λ i. requests has i) }
{
    requests & !mask
}

// The places of the high ring that request: high members, and the low place where there is a low member to hand its grant to.
pub fn high_requests(mask: u16, requests: u16, low: bool) -> u16
    requires { requests < 1024 }
    ensures { Requesting result (high_ring mask) (asks requests low) }
{
    let members = requests & mask;
    if low { members | 1024 } else { members }
}
