// Bytes, words and numbers added at the end of a line.
ghost use Rattle.std.specs.Prelude.{◌≡◌, [], ◌∷◌, ◌++◌, ◌+◌, ◌<◌, ◌≤◌, length};
ghost use Rattle.print_line.specs.definitions.Text.{hex_digit, hex_of, decimal_of};

use crate::Line;

fn hex_digit(d: u8) -> u8
    requires { d < 16 }
    ensures { result ≡ hex_digit d }
{
    if d < 10 { 48 + d } else { 55 + d }
}

impl Line {
    pub(crate) fn new() -> Self
        ensures { result ≡ [] }
    {
        Self {
            bytes: [0u8; 96],
            len: 0,
        }
    }

    pub(crate) fn byte(mut self, b: u8) -> Self
        requires { length self < 96 }
        ensures { result ≡ self ++ (b ∷ []) }
    {
        self.bytes[self.len] = b;
        self.len += 1;
        self
    }

    pub(crate) fn word(mut self, src: &[u8]) -> Self
        requires { length self + length src.now ≤ 96 }
        ensures { result ≡ self ++ src.now }
    {
        let at = self.len;
        let end = at + src.len();
        self.bytes[at..end].copy_from_slice(src);
        self.len = end;
        self
    }

    // The k lowest hexadecimal digits of x, by the definition's recursion: a loop would need the powers of 16.
    pub(crate) fn hex(self, k: usize, x: u64) -> Self
        requires { length self + k ≤ 96 }
        ensures { result ≡ self ++ hex_of k x }
    {
        if k == 0 {
            return self;
        }
        let l = self.hex(k - 1, x / 16);
        l.byte(hex_digit((x % 16) as u8))
    }

    // By the definition's recursion, which writes the highest digit first: a loop finds the lowest first.
    pub(crate) fn decimal(self, x: u32) -> Self
        requires { length self + length (decimal_of x) ≤ 96 }
        ensures { result ≡ self ++ decimal_of x }
    {
        if x < 10 {
            return self.byte(48 + x as u8);
        }
        let l = self.decimal(x / 10);
        l.byte(48 + (x % 10) as u8)
    }
}
