// Numbers in bytes, the lowest byte first, put into lent bytes.
ghost use Rattle.std.specs.Prelude.{◌≡◌, ◌+◌, ◌≤◌, length};
ghost use Rattle.little_endian.specs.Numbers.{bytes_of, put_at};

pub fn put_u16(s: &mut [u8], at: usize, n: u16)
    // There is room: only our crates call this, each after a test of the length.
    requires { at + 2 ≤ length s.old }
    ensures { s.new ≡ put_at s.old at (bytes_of 2 n) }
{
    s[at..at + 2].copy_from_slice(&n.to_le_bytes());
}

pub fn put_u32(s: &mut [u8], at: usize, n: u32)
    // There is room: only our crates call this, each after a test of the length.
    requires { at + 4 ≤ length s.old }
    ensures { s.new ≡ put_at s.old at (bytes_of 4 n) }
{
    s[at..at + 4].copy_from_slice(&n.to_le_bytes());
}
