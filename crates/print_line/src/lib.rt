// The line of each answer, byte for byte as document 01, 'The program', prints it.
#![tactic(auto)]

ghost use Rattle.std.specs.Prelude.{◌≡◌, ◌≤◌, length};

pub mod acting;
pub mod ending;
mod field;
pub mod refused;
pub mod report;
mod text;

use std::marker::Model;

// A line's text, which has at most 96 bytes. The room behind it is zero, so that the text says all of a line and a line may be copied.
#[derive(Clone, Copy)]
pub struct Line {
    bytes: [u8; 96],
    len: usize,
}

// Clauses see the text.
impl Model for Line {
    ghost use Rattle.std.specs.Prelude.{◌≡◌, ℕ, ◌-◌, ◌≤◌, List, ◌++◌, length, take, drop, replicate};
    ghost use Rattle.std.proofs.Common.{ap, sym, ◌∙◌, arith, length-take-le, take-append-drop};

    ghost Value = { List ℕ };

    ghost view = { λ l. take l.len l.bytes };

    ghost invariant = { λ l. (l.len ≤ 96) × (length l.bytes ≡ 96) × (drop l.len l.bytes ≡ replicate (96 - l.len) 0) };

    ghost inverse = { λ t. record { bytes = t ++ replicate (96 - length t) 0; len = length t } };

    ghost inverse_ok = { λ l h i.
        let text = take l.len l.bytes in
        let long = length-take-le l.len l.bytes (omega (arith, h.0, h.1)) in record {
          bytes = (ap (λ n. text ++ replicate (96 - n) 0) long ∙ ap (λ r. text ++ r) (sym h.2) ∙ take-append-drop l.len l.bytes) i;
          len = long i;
        } };
}

impl Line {
    pub fn as_bytes(&self) -> &[u8]
        ensures text { result.now ≡ self.now }
        ensures short { length result.now ≤ 96 }
    {
        &self.bytes[..self.len]
    }
}
