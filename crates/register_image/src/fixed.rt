// Refusals 11 and 12: the lengths of the images, and bits that no write can have changed.
ghost use Rattle.register_image.specs.definitions.Lent.{tree_in, images_in};
ghost use Rattle.std.specs.Prelude.{◌≡◌};
ghost use Rattle.register_image.specs.definitions.Fixed.{lengths_wrong, value_wrong, part_wrong, node_wrong, fixed_wrong};

use crate::Registers;
use rack::Node;
use rack::table::count_of;

// Whether a fixed bit of the byte differs from its reset value.
fn value_wrong(n: Node, at: usize, value: u8) -> bool
    ensures { result ≡ value_wrong n at value }
{
    let fixed = register_header::mask::fixed_mask(n, at);
    (value & fixed) != (register_header::mask::reset_byte(n, at) & fixed)
}

// Whether a fixed bit of a node's registers does.
pub fn part_wrong(n: Node, part: &[u8]) -> bool
    ensures { result ≡ part_wrong n part.now }
{
    (0..64).any(|at| value_wrong(n, at, register_header::register::byte_at(part, at)))
}

impl Registers<'_, '_> {
    fn node_wrong(&self, i: u8) -> bool
        ensures { result ≡ node_wrong (tree_in self.now) (images_in self.now) i }
    {
        part_wrong(rack::table::node_at(self.table, i as usize), self.view(i))
    }

    // Whether one of any node does.
    pub fn fixed_wrong(&self) -> bool
        ensures { result ≡ fixed_wrong (tree_in self.now) (images_in self.now) }
    {
        (0..count_of(self.table)).any(|i| self.node_wrong(i))
    }

    pub fn lengths_wrong(&self) -> bool
        ensures { result ≡ lengths_wrong (tree_in self.now) (images_in self.now) }
    {
        let count = count_of(self.table) as usize;
        let b = rack::table::bridges_below(self.table, count);
        let d = count - b;
        !((self.bridges.len() == 64 * b) & (self.devices.len() == 64 * d))
    }
}
