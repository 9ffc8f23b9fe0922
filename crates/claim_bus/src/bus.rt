// The claimants of a bus.
ghost use Rattle.register_image.specs.definitions.Lent.{tree_in, images_in};
ghost use Rattle.std.specs.Prelude.{◌≡◌, ◌-◌};
ghost use Rattle.rack.specs.definitions.Count.{find_from};
ghost use Rattle.claim_agent.specs.definitions.Claimants.{counted, counted_on_bus, claimants, first_two};

use crate::decode::agent_claims;
use claim_agent::{Claimants, Transaction};
use rack::table::{count_of, parent_at};
use register_image::Registers;

// Whether agent g claims and does not drive.
fn counts(registers: &Registers, t: Transaction, g: u8) -> bool
    ensures { result ≡ counted (tree_in registers.now) (images_in registers.now) t.space t.bus t.driver t.address g }
{
    if g == t.driver {
        return false;
    }
    agent_claims(registers, t.bus, g, t.space, t.address)
}

// The first node on the bus, from number `from` on, that claims and does not drive. Its bus is tested before anything is called.
fn next_claimant(registers: &Registers, t: Transaction, from: u8) -> Option<u8>
    ensures { result ≡ find_from (counted_on_bus (tree_in registers.now) (images_in registers.now) t.space t.bus t.driver t.address) from ((tree_in registers.now).count - from) }
{
    (from..count_of(registers.table)).find(|i| parent_at(registers.table, *i) == t.bus
        && counts(registers, t, *i))
}

// The claimants of a transaction, in agent order: the holder, then the nodes by number.
pub fn claimants_of(registers: &Registers, t: Transaction) -> Claimants
    ensures { result ≡ first_two (claimants (tree_in registers.now) (images_in registers.now) t.space t.bus t.driver t.address) }
{
    let holder = counts(registers, t, t.bus);
    match next_claimant(registers, t, 0) {
        None if holder => Claimants::One(t.bus),
        None => Claimants::Nobody,
        Some(one) if holder => Claimants::Two(t.bus, one),
        Some(one) => match next_claimant(registers, t, one + 1) {
            None => Claimants::One(one),
            Some(two) => Claimants::Two(one, two),
        },
    }
}
