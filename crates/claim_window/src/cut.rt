// How far upwards a test on an address keeps its answer: each function brings an end e down.
ghost use Rattle.std.specs.Prelude.{◌≡◌, ◌+◌, ◌%◌, ◌<◌};
ghost use Rattle.claim_window.specs.definitions.Range.{within};
ghost use Rattle.claim_window.specs.definitions.Cut.{cut_at, cut_past, cut_range, cut_if, cut_low};

use rack::Range;

pub fn within_range(r: Range, a: u64) -> bool
    ensures { result ≡ within r a }
{
    (r.first <= a) & (a <= r.last)
}

// Of at <= x.
fn cut_at(at: u64, a: u64, e: u64) -> u64
    ensures { result ≡ cut_at at a e }
{
    if a < at { e.min(at - 1) } else { e }
}

// Of x <= last.
fn cut_past(last: u64, a: u64, e: u64) -> u64
    ensures { result ≡ cut_past last a e }
{
    if a <= last { e.min(last) } else { e }
}

// Of a range.
pub fn cut_range(r: Range, a: u64, e: u64) -> u64
    ensures { result ≡ cut_range r a e }
{
    cut_past(r.last, a, cut_at(r.first, a, e))
}

fn cut_if(on: bool, at: u64, a: u64, e: u64) -> u64
    ensures { result ≡ cut_if on at a e }
{
    if on { cut_at(at, a, e) } else { e }
}

// The low part of an address: ISA and VGA use no more than 16 bits.
pub(crate) fn low_part(a: u64) -> u16
    ensures { result ≡ a % 0x10000 }
{
    (a % 0x10000) as u16
}

// Of the ISA and the VGA rule. Where a block of 1 KiB starts is widened: the last one ends at 10000h, which 16 bits do not hold.
pub fn cut_low(isa: bool, vga: bool, a: u64, e: u64) -> u64
    ensures { result ≡ cut_low isa vga a e }
{
    if 0x10000 <= a {
        return e;
    }
    let low = low_part(a);
    let start = low - low % 1024;
    let b = start as u64;
    let e1 = cut_if(isa, b + 0x100, a, e);
    let e2 = cut_if(vga, b + 0x3B0, a, e1);
    let e3 = cut_if(vga, b + 0x3BC, a, e2);
    let e4 = cut_if(vga, b + 0x3C0, a, e3);
    let e5 = cut_if(vga, b + 0x3E0, a, e4);
    cut_if(isa | vga, b + 0x400, a, e5)
}
