// Register reads and writes on the 64 bytes of one node, which are lent out of the middle of their image.
ghost use Rattle.std.specs.Prelude.{◌≡◌, ◌+◌, ◌*◌, ◌^◌, ◌<◌, get_or};
ghost use Rattle.register_header.specs.definitions.Register.{bit_at, read_register, write_byte, write_register};

use rack::Node;

// The byte at a place, 0 past the end.
pub fn byte_at(part: &[u8], at: usize) -> u8
    ensures { result ≡ get_or part.now at 0 }
{
    part.get(at).copied().unwrap_or(0)
}

// Whether a bit of a byte is set; a bit is its value, as in `pci_regs`.
pub fn bit_at(byte: u8, bit: u8) -> bool
    requires { 0 < bit }
    ensures { result ≡ bit_at byte bit }
{
    byte / bit % 2 == 1
}

// Two dwords as one number. `u64::from_le_bytes` would have them taken apart into bytes first.
pub fn qword_of(low: u32, high: u32) -> u64
    ensures { result ≡ high * 2 ^ 32 + low }
{
    high as u64 * 0x1_0000_0000 + low as u64
}

pub fn read_register(part: &[u8], register: u8) -> u32
    ensures { result ≡ read_register part.now register }
{
    if register < 64 {
        let at = register as usize;
        return u32::from_le_bytes([
            byte_at(part, at),
            byte_at(part, at + 1),
            byte_at(part, at + 2),
            byte_at(part, at + 3),
        ]);
    }
    0
}

fn write_byte(part: &mut [u8], n: Node, at: usize, on: bool, put: u8)
    ensures { part.new ≡ write_byte n part.old at on put }
{
    if on && at < part.len() {
        part[at] = crate::byte::written(
            part[at],
            put,
            crate::mask::write_mask(n, at),
            crate::mask::clear_mask(n, at),
        );
    }
}

pub fn write_register(part: &mut [u8], n: Node, register: u8, enables: u8, put: u32)
    ensures { part.new ≡ write_register n part.old register enables put }
{
    if register < 64 {
        let at = register as usize;
        let bytes = put.to_le_bytes();
        for i in 0..4 {
            write_byte(part, n, at + i, bit_at(enables, 1 << i), bytes[i]);
        }
    }
}
