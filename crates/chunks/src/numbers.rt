// Numbers in bytes, the lowest byte first.
ghost use Rattle.std.specs.Prelude.{◌≡◌, ◌+◌, ◌≤◌, length};
ghost use Rattle.std.proofs.Math.Seq.{paste};
ghost use Rattle.chunks.specs.Numbers.{u16_at, u32_at};

// The number of two bytes. One function for two and four bytes would need a trait over u16 and u32: no plainer. At a
// place: a head's numbers stand where the format fixes them.
pub(crate) fn u16_at(bytes: &[u8], at: usize) -> u16
    requires { at + 2 ≤ length bytes.now }
    ensures { result ≡ u16_at bytes.now at }
{
    u16::from_le_bytes([bytes[at], bytes[at + 1]])
}

// The number of four bytes.
pub fn u32_at(bytes: &[u8], at: usize) -> u32
    requires { at + 4 ≤ length bytes.now }
    ensures { result ≡ u32_at bytes.now at }
{
    u32::from_le_bytes([bytes[at], bytes[at + 1], bytes[at + 2], bytes[at + 3]])
}

// Puts bytes at a place.
pub fn put<const N: usize>(dest: &mut [u8], at: usize, bytes: [u8; N])
    requires { at + N ≤ length dest.old }
    ensures { dest.new ≡ paste dest.old at bytes.entry N }
{
    dest[at..at + N].copy_from_slice(&bytes);
}
