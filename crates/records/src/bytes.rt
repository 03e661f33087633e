// Bytes of a buffer.
ghost use Rattle.std.specs.Prelude.{◌≡◌, ◌+◌, ◌<◌, ◌≤◌, length};
ghost use Rattle.letters.specs.Numbers.{number_16};
ghost use Rattle.records.specs.Buffers.{overlaid};

// Writes bytes over a part of a buffer.
pub(crate) fn put(out: &mut [u8], at: usize, bytes: &[u8])
    requires { at + length bytes.now ≤ length out.old }
    ensures { out.new ≡ overlaid out.old at bytes.now }
{
    out[at..at + bytes.len()].copy_from_slice(bytes);
}

pub(crate) fn number_at(bytes: &[u8], place: usize) -> u16
    requires { place + 1 < length bytes.now }
    ensures { result ≡ number_16 place bytes.now }
{
    u16::from_le_bytes([bytes[place], bytes[place + 1]])
}
