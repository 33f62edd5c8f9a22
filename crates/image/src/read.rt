// Part 6 of document 01: the parts of an image, read.
ghost use Rattle.std.specs.Prelude.{◌≡◌, ◌≤◌, length, not, ◌&&◌, eqb};
ghost use Rattle.image.specs.Parts.{image_tags_of, image_slots_of, address_at, opcode_at, image_window_of};
ghost use Rattle.image.specs.Wrong.{header_wrong, window_wrong};
ghost use Rattle.image.specs.ImageLayout.{old_length};

use crate::{
    ADDRESS, BITS, DEFS, IMAGE_LENGTH, KIND, OLD_KIND, OLD_PAYLOAD, OPCODE, OPENED, PAYLOAD, SLOTS,
    TAGS,
};
use window::Window;

// The bytes of each part are there: `image_verdict` and `image_state` call these, after the test of the length.
// Stays a slice with a `requires`, as below: images have two lengths, an array has one, and one form serves all parts.
#[tactic(auto, unfolding(crate::specs::Wrong::header_wrong))]
pub fn header_wrong(bytes: &[u8]) -> bool
    requires { old_length ≤ length bytes.now }
    ensures { result ≡ header_wrong bytes.now }
{
    let (payload, kind) = if bytes.len() == IMAGE_LENGTH {
        (PAYLOAD, KIND)
    } else {
        (OLD_PAYLOAD, OLD_KIND)
    };
    little_endian::u16_at(bytes, 0) != payload || little_endian::u16_at(bytes, 2) != kind
}

// The head's address; an image without head fields has zero.
fn head_address(bytes: &[u8]) -> u32
    ensures { result ≡ address_at bytes.now }
{
    if bytes.len() == IMAGE_LENGTH {
        little_endian::u32_at(bytes, ADDRESS)
    } else {
        0
    }
}

// The head's opcode; an image without head fields has zero.
fn head_opcode(bytes: &[u8]) -> u16
    ensures { result ≡ opcode_at bytes.now }
{
    if bytes.len() == IMAGE_LENGTH {
        little_endian::u16_at(bytes, OPCODE)
    } else {
        0
    }
}

// A head field that is not zero.
fn head_set(bytes: &[u8]) -> bool
    ensures { result ≡ not (eqb (address_at bytes.now) 0 && eqb (opcode_at bytes.now) 0) }
{
    head_address(bytes) != 0 || head_opcode(bytes) != 0
}

#[tactic(auto, using(little_endian::proofs::Loops::byte_at), unfolding(crate::specs::Wrong::window_wrong))]
pub fn window_wrong(bytes: &[u8]) -> bool
    requires { old_length ≤ length bytes.now }
    ensures { result ≡ window_wrong bytes.now }
{
    let opened = bytes[OPENED];
    let defs = little_endian::u16_at(bytes, DEFS);
    let bits = bytes[BITS];
    opened > 1 || bits >= 8 || opened == 0 && (defs != 0 || bits != 0 || head_set(bytes))
}

pub fn image_tags(bytes: &[u8]) -> [u32; 256]
    requires { old_length ≤ length bytes.now }
    ensures { result ≡ image_tags_of bytes.now }
{
    let mut tags = [0u32; 256];
    for (i, tag) in tags.iter_mut().enumerate() {
        *tag = little_endian::u32_at(bytes, TAGS + 4 * i);
    }
    tags
}

pub fn image_slots(bytes: &[u8]) -> [u8; 256]
    requires { old_length ≤ length bytes.now }
    ensures { result ≡ image_slots_of bytes.now }
{
    let mut slots = [0u8; 256];
    slots.copy_from_slice(&bytes[SLOTS..SLOTS + 256]);
    slots
}

pub fn image_window(bytes: &[u8]) -> Window
    requires { old_length ≤ length bytes.now }
    ensures { result ≡ image_window_of bytes.now }
{
    let opened = bytes[OPENED];
    let defs = little_endian::u16_at(bytes, DEFS);
    let bits = bytes[BITS];
    let op = head_opcode(bytes);
    let address = head_address(bytes);
    Window {
        opened: opened == 1,
        defs,
        ccr: bits & 1 != 0,
        mem: bits & 2 != 0,
        warm: bits & 4 != 0,
        op,
        address,
    }
}
