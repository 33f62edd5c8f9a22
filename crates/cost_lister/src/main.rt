// The cost lister: a trace from standard input, its listing to standard output, in the profile that the word behind the
// program's name names; none is the crate's.
//
// `input` reads both, `listing` makes the text from a fresh state; input that cannot be read, and a word that names no
// profile, are said on standard error.
#![tactic(auto)]

use listing::LISTING_ROOM;
use state::Oep060Timing;
use std::io;

// The buffers stand before all that can end it, or the compiler clears them twice.
fn main(rt: HostRuntime) -> io::Result<()> {
    // One byte more than is taken, so that longer input is seen to be longer.
    let mut bytes = [0u8; 65537];
    let mut text = [0u8; LISTING_ROOM];
    let Some(profile) = input::read_word(&rt) else {
        return eprintln!(rt; "cost_lister: the profile is crate or mended");
    };
    let Some(trace) = input::on_input(&rt, "cost_lister", &mut bytes)? else {
        return Ok(());
    };
    let listed = listing::list_trace(trace, &mut text, Oep060Timing::fresh(), profile);
    rt.write_all(&text[..listed.len])
}
