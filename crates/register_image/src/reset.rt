// Both images filled with their reset values.
ghost use Rattle.register_image.specs.definitions.LentMut.{tree_at, images_at, Same};
ghost use Rattle.std.specs.Prelude.{◌≡◌, length};
ghost use Rattle.register_image.specs.definitions.Reset.{reset_part, byte_changed, is_changed, reset_node, reset_images};

use crate::RegistersMut;
use rack::Node;
use rack::table::count_of;

fn reset_part(part: &mut [u8], n: Node)
    requires { length part.old ≡ 64 }
    ensures { part.new ≡ reset_part n }
{
    for at in 0..64 {
        part[at] = register_header::mask::reset_byte(n, at);
    }
}

fn byte_changed(n: Node, part: &[u8], at: usize) -> bool
    ensures { result ≡ byte_changed n part.now at }
{
    register_header::register::byte_at(part, at) != register_header::mask::reset_byte(n, at)
}

// Whether a node's registers differ from reset.
pub fn is_changed(n: Node, part: &[u8]) -> bool
    ensures { result ≡ is_changed n part.now }
{
    (0..64).any(|at| byte_changed(n, part, at))
}

impl RegistersMut<'_> {
    // One node at reset.
    pub fn reset_node(&mut self, i: u8)
        ensures leaves { images_at self.new ≡ reset_node (tree_at self.old) (images_at self.old) i }
        ensures same { Same self.old self.new }
    {
        self.change(i, |n, part| reset_part(part, n));
    }

    pub fn reset_images(&mut self)
        ensures leaves { images_at self.new ≡ reset_images (tree_at self.old) (images_at self.old) }
        ensures same { Same self.old self.new }
    {
        let count = count_of(self.table);
        for i in 0..count {
            self.reset_node(i);
        }
    }
}
