// The search of a space from stretch to stretch: after an address comes the first at which an agent's claim may change.
ghost use Rattle.register_image.specs.definitions.Lent.{tree_in, images_in};
ghost use Rattle.std.specs.Prelude.{◌≡◌, ◌+◌, ◌-◌, ◌≤◌, length};
ghost use Rattle.rack.specs.definitions.Tree.{agents};
ghost use Rattle.check_search.specs.definitions.Check.{first_from, at_value};
ghost use Rattle.check_search.specs.definitions.Gathered.{Gathered};

use check_search::Report;
use check_search::drivers::found_at;
use claim_agent::{Agent, Space};
use register_image::Registers;

// The first fault of a bus among the values from first to last of a space.
pub fn sweep(
    registers: &Registers,
    bus: u8,
    gathered: &[Agent],
    space: Space,
    first: u64,
    last: u64,
) -> Report
    requires { (length gathered.now ≡ length (agents (tree_in registers.now) bus)) × (first ≤ last) × Gathered (tree_in registers.now) (images_in registers.now) bus gathered.now }
    ensures { result ≡ first_from (at_value (tree_in registers.now) (images_in registers.now) bus space) (last + 1 - first) first }
{
    let mut a = first;
    loop {
        let mut claiming: usize = 0;
        let mut until = last;
        for agent in gathered {
            let v = agent.verdict(space, a, until);
            claiming += usize::from(v.claims);
            until = v.until;
        }
        found_at(registers, bus, space, a, claiming)?;
        if last <= until {
            return Ok(());
        }
        a = until + 1;
    }
}
