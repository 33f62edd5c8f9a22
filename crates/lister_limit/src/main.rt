// The cost lister's own limit: what it prints of 65,536 bytes, which it takes, and of 65,537, which it refuses. The
// bytes are breaks.
//
// `list_trace` of `listing` is called twice, as the cost lister calls it.
#![tactic(auto)]

use listing::LISTING_ROOM;
use profile::Profile;
use state::Oep060Timing;
use std::{array, io};

// A trace of breaks, each of length 0 and kind 2.
fn breaks() -> [u8; 65537] {
    array::from_fn(|i| if i % 4 == 2 { 2 } else { 0 })
}

fn list(rt: &impl Print, trace: &[u8]) -> io::Result<()> {
    let mut text = [0u8; LISTING_ROOM];
    let listed = listing::list_trace(trace, &mut text, Oep060Timing::fresh(), Profile::Crate);
    rt.write_all(&text[..listed.len])
}

fn main(rt: HostRuntime) -> io::Result<()> {
    let bytes = breaks();
    list(&rt, &bytes[..65536])?;
    list(&rt, &bytes)
}
