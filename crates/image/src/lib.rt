// Part 6 of document 01, and document 02's R-6: the state as bytes.
//
// Here are the places of an image's parts and the two entries: `image_write` looks at the room and has `write` put each
// part; `image_read` judges the bytes in the order of the table and has `read` take each part. `host` and `replaying`
// call the two.
#![tactic(auto)]

mod read;
mod write;

ghost use Rattle.std.specs.Prelude.{◌≡◌, ◌≤◌, length, ◌||◌, eqb};
ghost use Rattle.image.specs.Image.{image_state_of};
ghost use Rattle.image.specs.Entries.{image_verdict_of, image_outcome, image_write_of, image_read_of};
ghost use Rattle.image.specs.ImageLayout.{old_length, image_length};

use branch_cache::BranchCache060;
use refusals::{Refusal, Verdict};
use state::Oep060Timing;

pub const IMAGE_LENGTH: usize = 1294;

pub const KIND: u16 = 17;

const PAYLOAD: u16 = 1290;

// What was written before the head's opcode and address were kept: still read, with zeros for both.
pub const OLD_LENGTH: usize = 1288;

const OLD_KIND: u16 = 16;

const OLD_PAYLOAD: u16 = 1284;

// Where the parts of an image start.
const TAGS: usize = 4;

const SLOTS: usize = 1028;

const OPENED: usize = 1284;

const DEFS: usize = 1285;

const BITS: usize = 1287;

const ADDRESS: usize = 1288;

const OPCODE: usize = 1292;

// What image reading answers.
// Stays a verdict beside a value: a refused image gives a fresh state.
#[derive(Clone, Copy)]
pub struct ImageRead {
    pub verdict: Verdict,
    pub timing: Oep060Timing,
}

// Puts the image of a state into lent bytes: how many bytes that are, or the refusal. Those beyond it stay.
pub fn image_write(timing: Oep060Timing, out: &mut [u8]) -> Result<usize, Refusal>
    ensures { image_outcome result out.new ≡ image_write_of timing out.old }
{
    let Some(image) = out.first_chunk_mut() else {
        return Err(Refusal::Room(0));
    };
    write::put_image(timing, image);
    Ok(IMAGE_LENGTH)
}

// The length of an image of either kind.
fn either_length(n: usize) -> bool
    ensures { result ≡ (eqb n old_length || eqb n image_length) }
{
    n == OLD_LENGTH || n == IMAGE_LENGTH
}

// The first refusal of the table that holds.
#[tactic(auto, using(crate::proofs::Refusals::long_enough), unfolding(crate::specs::Entries::image_verdict_of))]
fn image_verdict(bytes: &[u8]) -> Verdict
    ensures { result ≡ image_verdict_of bytes.now }
{
    if !either_length(bytes.len()) {
        return Err(Refusal::ImageLength);
    }
    if read::header_wrong(bytes) {
        return Err(Refusal::ImageHeader);
    }
    if read::window_wrong(bytes) {
        return Err(Refusal::ImageWindow);
    }
    Ok(())
}

fn image_state(bytes: &[u8]) -> Oep060Timing
    requires { old_length ≤ length bytes.now }
    ensures { result ≡ image_state_of bytes.now }
{
    let tags = read::image_tags(bytes);
    let state = read::image_slots(bytes);
    let cache = BranchCache060 { tags, state };
    let window = read::image_window(bytes);
    Oep060Timing { cache, window }
}

// The state of an image; a refused image gives a fresh state.
pub fn image_read(bytes: &[u8]) -> ImageRead
    ensures { result ≡ image_read_of bytes.now }
{
    let verdict = image_verdict(bytes);
    let timing = match verdict {
        Ok(()) => image_state(bytes),
        Err(_) => Oep060Timing::fresh(),
    };
    ImageRead { verdict, timing }
}
