// A register write with all that it does: one that leaves bit 6 of bridge control set puts every node below at reset.
ghost use Rattle.register_image.specs.definitions.LentMut.{tree_at, images_at, Same};
ghost use Rattle.std.specs.Prelude.{◌≡◌, cond};
ghost use Rattle.register_image.specs.definitions.Reset.{reset_node};
ghost use Rattle.bus_reset.specs.definitions.Held.{is_below};
ghost use Rattle.bus_reset.specs.definitions.Store.{reset_below, below_reset, store_node};

use rack::table::count_of;
use register_image::RegistersMut;

// Node i at reset, where bridge b is above it.
fn reset_if_below(registers: &mut RegistersMut, b: u8, i: u8)
    ensures leaves { images_at registers.new ≡ cond (is_below (tree_at registers.old) b i) (reset_node (tree_at registers.old) (images_at registers.old) i) (images_at registers.old) }
    ensures same { Same registers.old registers.new }
{
    if crate::held::is_below(registers.table, b, i) {
        registers.reset_node(i);
    }
}

fn reset_below(registers: &mut RegistersMut, b: u8)
    ensures leaves { images_at registers.new ≡ reset_below (tree_at registers.old) (images_at registers.old) b }
    ensures same { Same registers.old registers.new }
{
    let count = count_of(registers.table);
    for i in 0..count {
        reset_if_below(registers, b, i);
    }
}

// What is below bridge b at reset, where its bit 6 is set.
fn below_reset(registers: &mut RegistersMut, b: u8)
    ensures leaves { images_at registers.new ≡ below_reset (tree_at registers.old) (images_at registers.old) b }
    ensures same { Same registers.old registers.new }
{
    if crate::held::resets(&registers.lent(), b) {
        reset_below(registers, b);
    }
}

// A register write of one node; on a held node it stores nothing.
pub fn store_node(registers: &mut RegistersMut, i: u8, register: u8, enables: u8, put: u32)
    ensures leaves { images_at registers.new ≡ store_node (tree_at registers.old) (images_at registers.old) i register enables put }
    ensures same { Same registers.old registers.new }
{
    if crate::held::is_held(&registers.lent(), i) {
        return;
    }
    registers.write_node(i, register, enables, put);
    below_reset(registers, i);
}
