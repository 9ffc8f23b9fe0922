// The size of a region, through the same register write that an access uses.
ghost use Rattle.std.specs.Prelude.{◌≡◌, ◌<◌, false};
ghost use Rattle.rack.specs.definitions.Node.{is_bridge};
ghost use Rattle.register_header.specs.definitions.Sizing.{cleared, negated, region_register, size_part};

use rack::Node;
use register_header::pci_regs::BASE_ADDRESS;
use register_header::register::qword_of;
use register_header::sizing::read_back;

// Zero minus a dword, its type bits cleared.
fn size_dword(seen: u32, types: u32) -> u64
    requires { 0 < types }
    ensures { result ≡ negated 32 (cleared types seen) }
{
    (seen - seen % types).wrapping_neg() as u64
}

// The same of two dwords. One function for both widths would need a mask or a trait of its own, which is no plainer.
fn size_qword(seen: u64) -> u64
    ensures { result ≡ negated 64 (cleared 16 seen) }
{
    (seen - seen % 16).wrapping_neg()
}

// The size of region r of a device, which is as it was at exit.
pub fn size_part(part: &mut [u8], n: Node, kind: u8, r: u8) -> u64
    requires { (is_bridge n.kind ≡ false) × (r < 3) }
    ensures { (result ≡ size_part n part.old kind (region_register r)) × (part.new ≡ part.old) }
{
    let register = BASE_ADDRESS + 8 * r;
    match kind {
        1 => size_dword(read_back(part, n, register), 4),
        2 => size_dword(read_back(part, n, register), 16),
        3 => {
            let high = read_back(part, n, register + 4);
            let low = read_back(part, n, register);
            size_qword(qword_of(low, high))
        }
        _ => 0,
    }
}
