// The agents of a bus, decoded once for all that is asked of them.
ghost use Rattle.register_image.specs.definitions.Lent.{tree_in, images_in};
ghost use Rattle.std.specs.Prelude.{◌≡◌, ◌≤◌, length};
ghost use Rattle.rack.specs.definitions.Table.{tree_of};
ghost use Rattle.rack.specs.definitions.Tree.{agents};
ghost use Rattle.check_search.specs.definitions.Gathered.{Gathered};

use claim_agent::Agent;
use claim_bus::decode::agent_at;
use rack::table::{Table, count_of, parent_at};
use register_image::Registers;

// How many agents a bus has.
pub fn agent_count(table: &Table, bus: u8) -> usize
    ensures { result ≡ length (agents (tree_of table.now) bus) }
{
    1 + (0..count_of(table))
        .filter(|i| parent_at(table, *i) == bus)
        .count()
}

// The agents of a bus in agent order: the holder, then the nodes by number. In an array, since there is no heap; callers lend on the part
// that is filled.
pub fn agents_on(registers: &Registers, bus: u8) -> [Agent; 17]
    requires { length (agents (tree_in registers.now) bus) ≤ 17 }
    ensures { Gathered (tree_in registers.now) (images_in registers.now) bus result }
{
    let holder = agent_at(registers, bus, bus);
    let mut found = [holder; 17];
    let mut n: usize = 1;
    let count = count_of(registers.table);
    for i in 0..count {
        if parent_at(registers.table, i) == bus {
            found[n] = agent_at(registers, bus, i);
            n += 1;
        }
    }
    found
}
