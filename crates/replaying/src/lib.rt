// The replay: the cost lister's text from a state image, and the next state's image.
//
// The input is an image and then a trace: `replay_parts` reads the image (`image`), `replay_from` lists the trace from
// its state (`listing`), and the next state follows: its head in a line (`head_line`), its image in the rows of
// `hex_lines`. Only `replay_text` is called from outside, by the program `replay`.
#![tactic(auto)]

mod head_line;
mod hex_lines;

ghost use Rattle.std.specs.Prelude.{◌≡◌, ◌++◌, ◌+◌, ◌≤◌, min, length};
ghost use Rattle.text.specs.Written.{text_of, written, written_of};
ghost use Rattle.image.specs.Entries.{image_read_of};
ghost use Rattle.listing.specs.Lines.{refusal_line};
ghost use Rattle.listing.specs.Listing.{short_trace_of};
ghost use Rattle.replaying.specs.Replay.{image_size, image_lines, state_lines, shown, replay_of};
ghost use Rattle.replaying.specs.Inner.{replayed};

use image::{IMAGE_LENGTH, KIND, OLD_LENGTH};
use profile::Profile;
use refusals::Refusal;
use state::Oep060Timing;

// Room for the longest text: the lister's, the head's line, and the 1,294 bytes of an image, two digits each, in 41
// lines.
pub const REPLAY_ROOM: usize = 68258;

// The image of a state in rows.
fn put_image_lines(out: &mut [u8], at: usize, timing: Oep060Timing) -> usize
    requires { at + 2629 ≤ length out.old }
    ensures { written result out.new ≡ written_of out.old at (image_lines timing) }
{
    let mut bytes = [0u8; IMAGE_LENGTH];
    // It has room, and so it is not refused.
    let _ = image::image_write(timing, &mut bytes);
    hex_lines::put_rows(out, at, &bytes)
}

// A state: its head, then its image.
#[tactic(auto, using(text::proofs::Behind::behind, crate::proofs::Replaying::head_line_length))]
fn put_state(out: &mut [u8], at: usize, timing: Oep060Timing) -> usize
    requires { at + 2651 ≤ length out.old }
    ensures { written result out.new ≡ written_of out.old at (state_lines timing) }
{
    let rows = head_line::put_head_line(out, at, timing.window);
    put_image_lines(out, rows, timing)
}

// The replay's text from the state that was read.
fn replay_from(
    trace: &[u8],
    out: &mut [u8; REPLAY_ROOM],
    timing: Oep060Timing,
    profile: Profile,
) -> usize
    ensures { written result out.new
        ≡ written_of out.old 0 (shown profile (short_trace_of trace.now) timing) }
{
    let listed = listing::list_into(trace, out, timing, profile);
    match listed.verdict {
        Err(_) => listed.len,
        Ok(()) => put_state(out, listed.len, listed.timing),
    }
}

// The whole text where the image is refused.
#[tactic(auto, using(text::proofs::Behind::behind))]
fn put_refused(out: &mut [u8], refusal: Refusal) -> usize
    requires { 59 ≤ length out.old }
    ensures { written result out.new
        ≡ written_of out.old 0 (text_of "image " ++ refusal_line refusal) }
{
    let at = text::put_bytes(out, 0, b"image ");
    listing::put_refusal(out, at, refusal)
}

// The image is judged first.
fn replay_parts(image: &[u8], trace: &[u8], out: &mut [u8; REPLAY_ROOM], profile: Profile) -> usize
    ensures { written result out.new
        ≡ written_of out.old 0 (replayed profile (image_read_of image.now) trace.now) }
{
    let read = image::image_read(image);
    match read.verdict {
        Err(refusal) => put_refused(out, refusal),
        Ok(()) => replay_from(trace, out, read.timing, profile),
    }
}

// How many bytes of the input are the image: by its kind, as far as there are so many.
fn image_size(input: &[u8]) -> usize
    ensures { result ≡ min (length input.now) (image_size input.now) }
{
    let n = input.len();
    if n < 4 { // too short to say a kind, and so for an image of either
        return n;
    }
    if little_endian::u16_at(input, 2) == KIND {
        return n.min(IMAGE_LENGTH);
    }
    n.min(OLD_LENGTH)
}

// The replay's text: its length, and in the lent bytes the text itself; bytes beyond it stay. The trace is what follows
// the image.
pub fn replay_text(input: &[u8], text: &mut [u8; REPLAY_ROOM], profile: Profile) -> usize
    ensures text_after { written result text.new
        ≡ written_of text.old 0 (replay_of profile input.now) }
    ensures upper_bound { result ≤ length text.new }
{
    let (image, trace) = input.split_at(image_size(input));
    replay_parts(image, trace, text, profile)
}
