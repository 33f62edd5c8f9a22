// Part 6 of document 01: the parts of an image, put into lent bytes.
ghost use Rattle.std.specs.Prelude.{◌≡◌};
ghost use Rattle.little_endian.specs.Numbers.{put_at, bytes_of_each};
ghost use Rattle.image.specs.Bytes.{bits_of, header_bytes, window_bytes, head_bytes};
ghost use Rattle.image.specs.Image.{image_of};
ghost use Rattle.image.specs.ImageLayout.{tags_place, slots_place, open_place, address_place};

use crate::{ADDRESS, BITS, DEFS, IMAGE_LENGTH, KIND, OPCODE, OPENED, PAYLOAD, SLOTS, TAGS};
use state::{Oep060Timing, packed_below};
use window::Window;

#[tactic(auto, using(bits::proofs::Words::num_small), unfolding(crate::specs::Bytes::bits_of))]
fn bits_of(w: Window) -> u8
    ensures { result ≡ bits_of w }
{
    let from_warm = packed_below(w.warm, 0);
    let from_mem = packed_below(w.mem, from_warm);
    packed_below(w.ccr, from_mem) as u8
}

fn put_image_header(out: &mut [u8; IMAGE_LENGTH])
    ensures { out.new ≡ put_at out.old 0 header_bytes }
{
    little_endian::put_u16(out, 0, PAYLOAD);
    little_endian::put_u16(out, 2, KIND);
}

fn put_image_tags(tags: [u32; 256], out: &mut [u8; IMAGE_LENGTH])
    ensures { out.new ≡ put_at out.old tags_place (bytes_of_each 4 tags) }
{
    for (i, tag) in tags.iter().enumerate() {
        little_endian::put_u32(out, TAGS + 4 * i, *tag);
    }
}

fn put_image_slots(slots: [u8; 256], out: &mut [u8; IMAGE_LENGTH])
    ensures { out.new ≡ put_at out.old slots_place (bytes_of_each 1 slots) }
{
    out[SLOTS..SLOTS + 256].copy_from_slice(&slots);
}

fn put_image_window(w: Window, out: &mut [u8; IMAGE_LENGTH])
    ensures { out.new ≡ put_at out.old open_place (window_bytes w) }
{
    out[OPENED] = u8::from(w.opened);
    little_endian::put_u16(out, DEFS, w.defs);
    out[BITS] = bits_of(w);
}

fn put_image_head(w: Window, out: &mut [u8; IMAGE_LENGTH])
    ensures { out.new ≡ put_at out.old address_place (head_bytes w) }
{
    little_endian::put_u32(out, ADDRESS, w.address);
    little_endian::put_u16(out, OPCODE, w.op);
}

// The image of a state, its parts one behind the other.
pub fn put_image(timing: Oep060Timing, out: &mut [u8; IMAGE_LENGTH])
    ensures { out.new ≡ image_of timing }
{
    let window = timing.window.seen();
    put_image_header(out);
    put_image_tags(timing.cache.tags, out);
    put_image_slots(timing.cache.state, out);
    put_image_window(window, out);
    put_image_head(window, out);
}
