// Refusals 11, 12 and 18: the lengths of the images, bits that no write can have changed, and held nodes that are not at reset.
ghost use Rattle.register_image.specs.definitions.Lent.{tree_in, images_in};
ghost use Rattle.rack.specs.definitions.Refused.{number_of};
ghost use Rattle.std.specs.Prelude.{◌≡◌};
ghost use Rattle.bus_reset.specs.definitions.Agreement.{node_disagrees, disagrees, image_refusal};

use rack::refusal::Refusal;
use rack::table::count_of;
use register_image::Registers;

// Whether a held node differs from reset.
fn node_disagrees(registers: &Registers, i: u8) -> bool
    ensures { result ≡ node_disagrees (tree_in registers.now) (images_in registers.now) i }
{
    crate::held::is_held(registers, i)
        && register_image::reset::is_changed(
            rack::table::node_at(registers.table, i as usize),
            registers.view(i),
        )
}

fn disagrees(registers: &Registers) -> bool
    ensures { result ≡ disagrees (tree_in registers.now) (images_in registers.now) }
{
    (0..count_of(registers.table)).any(|i| node_disagrees(registers, i))
}

// Whether two images are refused.
pub fn image_refusal(registers: &Registers) -> Result<(), Refusal>
    ensures { number_of result ≡ image_refusal (tree_in registers.now) (images_in registers.now) }
{
    let length = registers.lengths_wrong();
    let fixed = registers.fixed_wrong();
    let held = disagrees(registers);
    if length {
        return Err(Refusal::WrongLength);
    }
    if fixed {
        return Err(Refusal::FixedBit);
    }
    if held {
        return Err(Refusal::HeldRegisters);
    }
    Ok(())
}
