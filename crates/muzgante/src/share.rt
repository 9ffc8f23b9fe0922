// A step of the arbiter, for C. No rack plays a part.
ghost use Rattle.std.specs.Prelude.{◌≡◌};
ghost use Rattle.rack.specs.definitions.Refused.{number_of};
ghost use Rattle.call_numbers.specs.definitions.Numbers.{arbitration_numbers};
ghost use Rattle.muzgante.specs.definitions.Called.{rack_grant};

use arbiter::State;
use call_numbers::put_arbitration;
use call_table::refusal::numbered;

// One request set on a bus: who is granted, and the state after. Returns 0, or 20 with `answer` all 0.
pub fn rack_grant(mask: u16, requests: u16, high: u8, low: u8, answer: &mut [u64; 8]) -> u8
    ensures { (result ≡ number_of (rack_grant mask requests high low)) × (answer.new ≡ arbitration_numbers (rack_grant mask requests high low)) }
{
    let a = arbiter::arbitrate(mask, requests, State { high, low });
    put_arbitration(answer, numbered(a))
}
