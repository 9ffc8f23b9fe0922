// The part of a node in whichever of the two lent images holds it: the register view, and writes that change only that part.
ghost use Rattle.register_image.specs.definitions.LentMut.{tree_at, images_at, Same};
ghost use Rattle.register_image.specs.definitions.Lent.{tree_in, images_in};
ghost use Rattle.std.specs.Prelude.{◌≡◌, ℕ, List, length};
ghost use Rattle.register_header.specs.definitions.Register.{write_register, set_status};
ghost use Rattle.register_image.specs.definitions.Image.{node_part, in_part, on_part, view, in_node, on_node, write_node, status_node};

use crate::{Registers, RegistersMut};
use rack::Node;
use rack::table::{count_of, node_at, place_at};
use register_header::{Side, StatusBit};

// The 64 bytes at a place of an image; none past the last.
fn node_part(image: &[u8], place: usize) -> &[u8]
    ensures { result.now ≡ node_part image.now place }
{
    if place < image.len() / 64 {
        return &image[64 * place..64 * place + 64];
    }
    &image[0..0]
}

impl<'a> Registers<'_, 'a> {
    // The register view: the part of a node; of a missing node an empty part.
    pub fn view(&self, i: u8) -> &'a [u8]
        ensures { result.now ≡ view (tree_in self.now) (images_in self.now) i }
    {
        if i < count_of(self.table) {
            let n = node_at(self.table, i as usize);
            let place = place_at(self.table, i as usize) as usize;
            if n.kind.is_bridge() {
                return node_part(self.bridges, place);
            }
            return node_part(self.devices, place);
        }
        &self.bridges[0..0]
    }
}

// What a closure answers to the part at a place of an image, of a node n, and what it makes of it; past the last part it is not called.
fn change_part<R, F: FnOnce(Node, &mut [u8]) -> R>(
    image: &mut [u8],
    place: usize,
    n: Node,
    change: F,
) -> Option<R>
    requires { (m : Node) (part : _) → length part.now ≡ 64 → F.pre change m part }
    ensures answers { (h : Node → List ℕ → R) → ((m : Node) (part after : _) (r : R) → length part.now ≡ 64 → F.post change m part r after → r ≡ h m part.now) → result ≡ in_part image.old place (h n) }
    ensures leaves { (g : Node → List ℕ → List ℕ) → ((m : Node) (part after : _) (r : R) → length part.now ≡ 64 → F.post change m part r after → after.now ≡ g m part.now) → image.new ≡ on_part image.old place (g n) }
{
    if place < image.len() / 64 {
        return Some(change(n, &mut image[64 * place..64 * place + 64]));
    }
    None
}

impl RegistersMut<'_> {
    // What a closure answers to the part of one node, and what it makes of it; of a missing node it is not called.
    pub(crate) fn change<R, F: FnOnce(Node, &mut [u8]) -> R>(
        &mut self,
        i: u8,
        change: F,
    ) -> Option<R>
        requires { (m : Node) (part : _) → length part.now ≡ 64 → F.pre change m part }
        ensures answers { (h : Node → List ℕ → R) → ((m : Node) (part after : _) (r : R) → length part.now ≡ 64 → F.post change m part r after → r ≡ h m part.now) → result ≡ in_node (tree_at self.old) (images_at self.old) i (h ((tree_at self.old).node i)) }
        ensures leaves { (g : Node → List ℕ → List ℕ) → ((m : Node) (part after : _) (r : R) → length part.now ≡ 64 → F.post change m part r after → after.now ≡ g m part.now) → images_at self.new ≡ on_node (tree_at self.old) (images_at self.old) i (g ((tree_at self.old).node i)) }
        ensures same { Same self.old self.new }
    {
        if i < count_of(self.table) {
            let n = node_at(self.table, i as usize);
            let place = place_at(self.table, i as usize) as usize;
            if n.kind.is_bridge() {
                return change_part(self.bridges, place, n, change);
            }
            return change_part(self.devices, place, n, change);
        }
        None
    }

    // A register write of one node.
    pub fn write_node(&mut self, i: u8, register: u8, enables: u8, put: u32)
        ensures leaves { images_at self.new ≡ write_node (tree_at self.old) (images_at self.old) i register enables put }
        ensures same { Same self.old self.new }
    {
        self.change(i, |n, part| {
            register_header::register::write_register(part, n, register, enables, put)
        });
    }

    // A status bit of one node set.
    pub fn status_node(&mut self, i: u8, side: Side, bit: StatusBit)
        ensures leaves { images_at self.new ≡ status_node (tree_at self.old) (images_at self.old) i side bit }
        ensures same { Same self.old self.new }
    {
        self.change(
            i,
            |n, part| register_access::status::set_status(part, n, side, bit),
        );
    }
}
