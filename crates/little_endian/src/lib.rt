// Part 6 of document 01: numbers in bytes, the lowest byte first. Records, images and costs are made of them.
//
// Here numbers are read; `storing` puts them into lent bytes, and `signed` reads 32 bits as a signed number, which a
// raw count is. Nothing is tested here: each caller knows that the bytes are there.
#![tactic(auto)]

mod signed;
mod storing;

ghost use Rattle.std.specs.Prelude.{◌≡◌, ◌+◌, ◌≤◌, length};
ghost use Rattle.little_endian.specs.Numbers.{number_at};

pub use signed::i32_of;
pub use storing::{put_u16, put_u32};

// Stays one function for each width, as below and in `storing`: a trait is longer, and an array loses `bytes_of 2 n`.
pub fn u16_at(s: &[u8], at: usize) -> u16
    // The bytes are there: only our crates call this, each after a test of the length.
    requires { at + 2 ≤ length s.now }
    ensures { result ≡ number_at 2 s.now at }
{
    u16::from_le_bytes([s[at], s[at + 1]])
}

pub fn u32_at(s: &[u8], at: usize) -> u32
    // The bytes are there: only our crates call this, each after a test of the length.
    requires { at + 4 ≤ length s.now }
    ensures { result ≡ number_at 4 s.now at }
{
    u32::from_le_bytes([s[at], s[at + 1], s[at + 2], s[at + 3]])
}
