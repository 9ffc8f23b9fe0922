// What a bridge's windows answer for an address, and an end up to which the answer stays the same.
ghost use Rattle.std.specs.Prelude.{◌≡◌};
ghost use Rattle.claim_window.specs.definitions.Inside.{in_memory, in_prefetchable, isa_cut, in_io, in_vga_memory, in_vga_io, inside_memory, inside_io, memory_until, io_until};

use crate::Windows;
use crate::cut::{cut_low, cut_range, low_part, within_range};
use rack::Range;

const VGA_MEMORY: Range = Range {
    first: 0xA0000,
    last: 0xBFFFF,
};

impl Windows {
    pub fn in_memory(self, a: u64) -> bool
        ensures { result ≡ in_memory self a }
    {
        within_range(self.memory, a)
    }

    pub fn in_prefetchable(self, a: u64) -> bool
        ensures { result ≡ in_prefetchable self a }
    {
        within_range(self.prefetchable, a)
    }

    // An ISA hole: below 64 KiB, bits 9 to 8 not 00.
    fn isa_cut(self, a: u64) -> bool
        ensures { result ≡ isa_cut self a }
    {
        let low = low_part(a);
        self.isa & ((a < 0x10000) & (low / 256 % 4 != 0))
    }

    pub fn in_io(self, a: u64) -> bool
        ensures { result ≡ in_io self a }
    {
        within_range(self.io, a) & !self.isa_cut(a)
    }

    pub fn in_vga_memory(self, a: u64) -> bool
        ensures { result ≡ in_vga_memory self a }
    {
        self.vga & within_range(VGA_MEMORY, a)
    }

    pub fn in_vga_io(self, a: u64) -> bool
        ensures { result ≡ in_vga_io self a }
    {
        let low = low_part(a);
        let port = low % 1024;
        self.vga
            & ((a < 0x10000)
                & ((((0x3B0 <= port) & (port <= 0x3BB)) | ((0x3C0 <= port) & (port <= 0x3DF)))
                    & (!self.vga16 | (low / 1024 == 0))))
    }

    pub fn inside_memory(self, a: u64) -> bool
        ensures { result ≡ inside_memory self a }
    {
        self.in_memory(a) | (self.in_prefetchable(a) | self.in_vga_memory(a))
    }

    pub fn inside_io(self, a: u64) -> bool
        ensures { result ≡ inside_io self a }
    {
        self.in_io(a) | self.in_vga_io(a)
    }

    pub fn memory_until(self, a: u64, e: u64) -> u64
        ensures { result ≡ memory_until self a e }
    {
        let e = cut_range(self.memory, a, e);
        let e = cut_range(self.prefetchable, a, e);
        cut_range(VGA_MEMORY, a, e)
    }

    pub fn io_until(self, a: u64, e: u64) -> u64
        ensures { result ≡ io_until self a e }
    {
        cut_low(self.isa, self.vga, a, cut_range(self.io, a, e))
    }
}
