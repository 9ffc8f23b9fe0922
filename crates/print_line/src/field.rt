// The fields of a line: its first, and each further one after a space.
ghost use Rattle.std.specs.Prelude.{◌≡◌, ◌∷◌, ◌++◌, ◌+◌, ◌≤◌, length};
ghost use Rattle.print_line.specs.definitions.Text.{hex_of, decimal_of};

use crate::Line;

// An answer's line begins with the event number and a word.
#[tactic(auto, using(crate::proofs::Digits::decimal_ten))]
pub(crate) fn begun(n: u32, name: &[u8]) -> Line
    requires { length name.now ≤ 10 }
    ensures { (result ≡ decimal_of n ++ (32 ∷ name.now)) × (length result ≤ 21) }
{
    Line::new().decimal(n).word_field(name)
}

impl Line {
    pub(crate) fn word_field(self, src: &[u8]) -> Self
        requires { length self + 1 + length src.now ≤ 96 }
        ensures { (result ≡ self ++ (32 ∷ src.now)) × (length result ≡ length self + 1 + length src.now) }
    {
        self.byte(b' ').word(src)
    }

    pub(crate) fn hex_field(self, k: usize, x: u64) -> Self
        requires { length self + 1 + k ≤ 96 }
        ensures { (result ≡ self ++ (32 ∷ hex_of k x)) × (length result ≡ length self + 1 + k) }
    {
        self.byte(b' ').hex(k, x)
    }

    pub(crate) fn decimal_field(self, x: u32) -> Self
        requires { length self + 11 ≤ 96 }
        ensures { (result ≡ self ++ (32 ∷ decimal_of x)) × (length result ≤ length self + 11) }
    {
        self.byte(b' ').decimal(x)
    }
}
