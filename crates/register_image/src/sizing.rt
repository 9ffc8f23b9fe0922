// The size of a region of a node.
ghost use Rattle.register_image.specs.definitions.LentMut.{tree_at, images_at, Same};
ghost use Rattle.std.specs.Prelude.{◌≡◌, cond, ltb};
ghost use Rattle.rack.specs.definitions.Node.{is_bridge, region_in};
ghost use Rattle.register_header.specs.definitions.Sizing.{region_register, size_part};
ghost use Rattle.register_image.specs.definitions.Sizing.{size_region};

use crate::RegistersMut;
use rack::Node;

// The size of region r of a node, 0 where it has none; the part is at exit what it was.
fn size_in(part: &mut [u8], n: Node, r: u8) -> u64
    ensures size { result ≡ cond (is_bridge n.kind) 0 (cond (ltb r 3) (size_part n part.old (region_in n r).kind (region_register r)) 0) }
    ensures same { part.new ≡ part.old }
{
    if n.kind.is_bridge() {
        return 0;
    }
    if r < 3 {
        return register_access::sizing::size_part(part, n, n.regions[r as usize].kind, r);
    }
    0
}

impl RegistersMut<'_> {
    // The size of a device's region, 0 where there is none. Both images are at exit what they were.
    pub fn size_region(&mut self, i: u8, r: u8) -> u64
        ensures leaves { (result ≡ size_region (tree_at self.old) (images_at self.old) i r) × (images_at self.new ≡ images_at self.old) }
        ensures same { Same self.old self.new }
    {
        self.change(i, |n, part| size_in(part, n, r)).unwrap_or(0)
    }
}
