// The replay: an image and a trace from standard input; the listing from that state, and the next state's image, to
// standard output, in the profile that the word behind the program's name names; none is the crate's.
//
// `input` reads both, `replaying` makes the text; input that cannot be read, and a word that names no profile, are said
// on standard error.
#![tactic(auto)]

use replaying::REPLAY_ROOM;
use std::io;

// The buffers stand before all that can end it, or the compiler clears them twice.
fn main(rt: HostRuntime) -> io::Result<()> {
    // The longer image, the longest trace, and one byte more, so that longer input is seen to be longer.
    let mut bytes = [0u8; 66831];
    let mut text = [0u8; REPLAY_ROOM];
    let Some(profile) = input::read_word(&rt) else {
        return eprintln!(rt; "replay: the profile is crate or mended");
    };
    let Some(image_and_trace) = input::on_input(&rt, "replay", &mut bytes)? else {
        return Ok(());
    };
    let len = replaying::replay_text(image_and_trace, &mut text, profile);
    rt.write_all(&text[..len])
}
