// An image in lines of hexadecimal.
ghost use Rattle.std.specs.Prelude.{◌≡◌, ◌++◌, ◌+◌, ◌*◌, ◌≤◌, length};
ghost use Rattle.text.specs.Written.{newline, written, written_of};
ghost use Rattle.replaying.specs.HexLines.{hex_bytes_of, hex_rows};

use image::IMAGE_LENGTH;

// Bytes in hexadecimal, in a line.
fn put_row(out: &mut [u8], start: usize, bytes: &[u8]) -> usize
    requires { start + 2 * length bytes.now + 1 ≤ length out.old }
    ensures { written result out.new ≡ written_of out.old start (hex_bytes_of bytes.now ++ newline) }
{
    let mut place = start;
    for byte in bytes {
        place = text::put_hex::<2>(out, place, *byte as u32);
    }
    text::put_bytes(out, place, b"\n")
}

// An image in rows of 32 bytes; the last has 14.
pub fn put_rows(out: &mut [u8], start: usize, image: &[u8; IMAGE_LENGTH]) -> usize
    // There is room: only `put_image_lines` calls this, where the room is known.
    requires { start + 2629 ≤ length out.old }
    ensures { written result out.new ≡ written_of out.old start (hex_rows 41 image.now) }
{
    let mut place = start;
    for row in image.chunks(32) {
        place = put_row(out, place, row);
    }
    place
}
