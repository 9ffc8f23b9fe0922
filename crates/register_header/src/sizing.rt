// All ones written to a register and read back, through the same register write that an access uses: the step of sizing.
ghost use Rattle.std.specs.Prelude.{◌≡◌};
ghost use Rattle.register_header.specs.definitions.Sizing.{read_back, written_back};

use rack::Node;

// All ones written and read back, and what was there before written again.
pub fn read_back(part: &mut [u8], n: Node, register: u8) -> u32
    ensures { (result ≡ read_back n part.old register) × (part.new ≡ written_back n part.old register) }
{
    let saved = crate::register::read_register(part, register);
    crate::register::write_register(part, n, register, 15, 0xffff_ffff);
    let seen = crate::register::read_register(part, register);
    crate::register::write_register(part, n, register, 15, saved);
    seen
}
