// Hexadecimal digits as the tools print them.
ghost use Rattle.std.specs.Prelude.{◌≡◌, ◌%◌};
ghost use Rattle.text.specs.Hex.{hex_digit, hex_digits};

// The upper-case hexadecimal digit of the low four bits.
fn hex_digit(n: u16) -> u8
    ensures { result ≡ hex_digit (n % 16) }
{
    let low = n % 16;
    if low < 10 {
        b'0' + low as u8
    } else {
        b'A' + (low - 10) as u8
    }
}

// So many upper-case hexadecimal digits of a number, its last one at the end.
pub fn hex_digits<const DIGITS: usize>(n: u32) -> [u8; DIGITS]
    ensures { result ≡ hex_digits DIGITS n }
{
    let mut digits = [b'0'; DIGITS];
    let mut rest = n;
    for i in (0..DIGITS).rev() {
        digits[i] = hex_digit((rest % 65536) as u16);
        rest /= 16;
    }
    digits
}
