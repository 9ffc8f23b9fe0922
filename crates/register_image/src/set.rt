// A node's registers as a rack file holds them.
ghost use Rattle.register_image.specs.definitions.LentMut.{tree_at, images_at, Same};
ghost use Rattle.std.specs.Prelude.{◌≡◌, length};
ghost use Rattle.register_image.specs.definitions.Image.{set_node};

use crate::RegistersMut;

impl RegistersMut<'_> {
    // The registers of one node set to 64 bytes.
    pub fn set_node(&mut self, i: u8, bytes: &[u8])
        requires { length bytes.now ≡ 64 }
        ensures leaves { images_at self.new ≡ set_node (tree_at self.old) (images_at self.old) i bytes.now }
        ensures same { Same self.old self.new }
    {
        self.change(i, |_, part| part.copy_from_slice(bytes));
    }
}
