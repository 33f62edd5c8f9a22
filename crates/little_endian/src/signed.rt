// Part 6 of document 01: the signed number of 32 bits.
ghost use Rattle.std.specs.Prelude.{◌≡◌};
ghost use Rattle.little_endian.specs.Signed.{signed_of};

// The signed number with these 32 bits.
// Stays a function: its clause is `signed_of`, which every reading of a raw count cites, and the method's is another.
pub fn i32_of(x: u32) -> i32
    ensures { result ≡ signed_of x }
{
    x.cast_signed()
}
