// The one line of a refused file.
ghost use Rattle.std.specs.Prelude.{◌≡◌, ◌≤◌, length};
ghost use Rattle.rack.specs.definitions.Buffer.{over_start};
ghost use Rattle.print_line.specs.definitions.Line.{refused_line};

use print_line::refused::refused_line;

// Into a buffer; its length.
pub fn put_refused(number: u8, offset: u32, out: &mut [u8]) -> usize
    requires { 96 ≤ length out.old }
    ensures { (out.new ≡ over_start out.old (refused_line number offset)) × (result ≡ length (refused_line number offset)) × (result ≤ 96) }
{
    let line = refused_line(number, offset);
    let text = line.as_bytes();
    out[..text.len()].copy_from_slice(text);
    text.len()
}
