// Shows a trace: a trace from standard input, a line for each of its records to standard output.
//
// `input` reads, `showing` makes the text, and what cannot be read is said on standard error.
#![tactic(auto)]

use showing::SHOWING_ROOM;
use std::io;

// The buffers stand before all that can end it, or the compiler clears them twice.
fn main(rt: HostRuntime) -> io::Result<()> {
    // One byte more than is taken, so that longer input is seen to be longer.
    let mut bytes = [0u8; 65537];
    let mut text = [0u8; SHOWING_ROOM];
    let Some(trace) = input::on_input(&rt, "show_trace", &mut bytes)? else {
        return Ok(());
    };
    let len = showing::show_trace(trace, &mut text);
    rt.write_all(&text[..len])
}
