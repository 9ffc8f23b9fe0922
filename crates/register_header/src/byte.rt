// What a write leaves in one register byte.
ghost use Rattle.std.specs.Prelude.{◌≡◌};
ghost use Rattle.register_header.specs.definitions.Byte.{written_byte};

pub fn written(old: u8, put: u8, write: u8, clear: u8) -> u8
    ensures { result ≡ written_byte old put write clear }
{
    (old & !(write | clear)) | (put & write) | (old & clear & !put)
}
