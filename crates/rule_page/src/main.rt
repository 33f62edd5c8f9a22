// Prints the page of the classifier's rules, for the proofreader.
//
// `rule_text` makes the page from the table.
#![tactic(auto)]

use rule_text::PAGE_ROOM;
use std::io;

fn main(rt: HostRuntime) -> io::Result<()> {
    let mut text = [0u8; PAGE_ROOM];
    let len = rule_text::put_page(&mut text);
    rt.write_all(&text[..len])
}
