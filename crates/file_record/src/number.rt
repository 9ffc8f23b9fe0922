// Little-endian numbers at an offset of a file; bytes past its end are 0.
ghost use Rattle.std.specs.Prelude.{◌≡◌, ◌<◌};
ghost use Rattle.file_record.specs.definitions.Number.{word_in, dword_in, qword_in};

use register_header::register::byte_at;
use std::array;

// Offsets stay far below the largest number: a file has at most 65,536 bytes.
pub fn word_in(file: &[u8], o: usize) -> u16
    requires { o < 131072 }
    ensures { result ≡ word_in file.now o }
{
    u16::from_le_bytes(array::from_fn(|i| byte_at(file, o + i)))
}

pub fn dword_in(file: &[u8], o: usize) -> u32
    requires { o < 131000 }
    ensures { result ≡ dword_in file.now o }
{
    u32::from_le_bytes(array::from_fn(|i| byte_at(file, o + i)))
}

pub fn qword_in(file: &[u8], o: usize) -> u64
    requires { o < 130000 }
    ensures { result ≡ qword_in file.now o }
{
    u64::from_le_bytes(array::from_fn(|i| byte_at(file, o + i)))
}
