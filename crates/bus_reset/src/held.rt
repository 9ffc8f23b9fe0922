// Bit 6 of bridge control: which bridge resets its bus, and who is held by one.
ghost use Rattle.register_image.specs.definitions.Lent.{tree_in, images_in};
ghost use Rattle.std.specs.Prelude.{◌≡◌, ℕ, Bool};
ghost use Rattle.rack.specs.definitions.Table.{tree_of};
ghost use Rattle.bus_reset.specs.definitions.Held.{above, is_below, resets, held_bus, is_held};

use rack::table::{Table, parent_at};
use register_header::pci_regs::{BRIDGE_CONTROL, BRIDGE_CTL_BUS_RESET};
use register_image::Registers;

// Whether a bridge passes a test: the holder of a bus, or one above it. A parent is an earlier node, so the way up has no more steps than
// the bus has nodes before it.
pub fn any_above<F: Fn(u8) -> bool>(table: &Table, bus: u8, test: F) -> bool
    requires { F.IsAlwaysCallable test }
    ensures { (p : ℕ → Bool) → ((x : ℕ) (r : Bool) → F.post test x r → r ≡ p x) → result ≡ above (tree_of table.now) p bus }
{
    let mut at = bus;
    for _step in 0..bus as usize + 1 {
        if at == 255 {
            return false;
        }
        if test(at) {
            return true;
        }
        at = parent_at(table, at);
    }
    false
}

// Whether bridge b is above node i.
pub fn is_below(table: &Table, b: u8, i: u8) -> bool
    ensures { result ≡ is_below (tree_of table.now) b i }
{
    any_above(table, parent_at(table, i), |bridge| b == bridge)
}

// Whether bridge g holds what is below it in reset.
pub fn resets(registers: &Registers, g: u8) -> bool
    ensures { result ≡ resets (tree_in registers.now) (images_in registers.now) g }
{
    let part = registers.view(g);
    let control = register_header::register::byte_at(part, BRIDGE_CONTROL);
    register_header::register::bit_at(control, BRIDGE_CTL_BUS_RESET)
}

// Whether the holder of a bus, or a bridge above it, does so.
pub fn is_held_bus(registers: &Registers, bus: u8) -> bool
    ensures { result ≡ held_bus (tree_in registers.now) (images_in registers.now) bus }
{
    any_above(registers.table, bus, |bridge| resets(registers, bridge))
}

// Whether a node is held in reset.
pub fn is_held(registers: &Registers, i: u8) -> bool
    ensures { result ≡ is_held (tree_in registers.now) (images_in registers.now) i }
{
    is_held_bus(registers, parent_at(registers.table, i))
}
