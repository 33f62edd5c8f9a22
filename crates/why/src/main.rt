// Why two did not pair: a trace from standard input, a line with its reason for each retirement to standard output, as
// the words behind the program's name ask for it: `full` has three columns more and the counts, and a profile is named
// as it is to the cost lister.
//
// `input` reads both, `explaining` makes the text from a fresh state; input that cannot be read, and words that ask for
// nothing, are said on standard error.
#![tactic(auto)]

use explaining::WHY_ROOM;
use input::Request;
use state::Oep060Timing;
use std::io;

// The buffers stand before all that can end it, or the compiler clears them twice.
fn main(rt: HostRuntime) -> io::Result<()> {
    // One byte more than is taken, so that longer input is seen to be longer.
    let mut bytes = [0u8; 65537];
    let mut text = [0u8; WHY_ROOM];
    let Some(Request { full, profile }) = input::read_words(&rt) else {
        return eprintln!(rt; "why: the words are [full] [crate|mended]");
    };
    let Some(trace) = input::on_input(&rt, "why", &mut bytes)? else {
        return Ok(());
    };
    let len = explaining::why_text(trace, &mut text, Oep060Timing::fresh(), profile, full);
    rt.write_all(&text[..len])
}
