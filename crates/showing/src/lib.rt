// A trace as text: what the program `show_trace` prints.
//
// `lines` puts single lines (`text`). Here all records of a trace are checked first (`records`), since a refusal is the
// whole output; then the records are read again, a line for each. Only `show_trace` is called from outside.
#![tactic(auto)]

mod lines;

ghost use Rattle.std.specs.Prelude.{◌≡◌, ◌++◌, ◌+◌, ◌≤◌, length};
ghost use Rattle.text.specs.Written.{written, written_of};
ghost use Rattle.refusals.specs.Verdict.{accepted};
ghost use Rattle.records.specs.Trace.{read_trace};
ghost use Rattle.records.specs.Judged.{verdict_of};
ghost use Rattle.listing.specs.Listing.{short_trace_of};
ghost use Rattle.showing.specs.Lines.{header_line, end_line};
ghost use Rattle.showing.specs.Inner.{lines_of};
ghost use Rattle.showing.specs.Showing.{shown_of};

use listing::MOST_LISTED_BYTES;
use refusals::{Refusal, Verdict};

// Room for the longest text. A record of 4 bytes has a line of at most 17 characters, one of 20 bytes at most 58: so 17
// characters for each 4 bytes are enough, 278,528. The header has 37 characters, and the end line at most 10.
pub const SHOWING_ROOM: usize = 278600;

// Whether a trace is shown, or which refusal is; `explaining` prints by it, too.
#[tactic(auto, unfolding(listing::specs::Listing::short_trace_of))]
pub fn judge_short(trace: &[u8]) -> Verdict
    ensures { result ≡ verdict_of (short_trace_of trace.now) }
{
    if MOST_LISTED_BYTES < trace.len() {
        return Err(Refusal::Oversized);
    }
    records::check_all(trace)?;
    Ok(())
}

// A line for each record of a trace whose records are all sound.
fn put_lines(trace: &[u8], out: &mut [u8], start: usize) -> usize
    requires trace_value { verdict_of (read_trace trace.now) ≡ accepted }
    requires trace_in_bounds { start + length (lines_of 0 (read_trace trace.now)) ≤ length out.old }
    ensures { written result out.new
        ≡ written_of out.old start (lines_of 0 (read_trace trace.now)) }
{
    let mut place = start;
    for (at, event) in records::events_of(trace) {
        place = lines::put_record(out, place, at, event);
    }
    place
}

// The whole text of a trace whose records are all sound.
#[tactic(auto, using(text::proofs::Behind::behind))]
fn put_shown(trace: &[u8], out: &mut [u8]) -> usize
    requires trace_value { verdict_of (read_trace trace.now) ≡ accepted }
    requires trace_in_bounds { length (lines_of 0 (read_trace trace.now)) + 37 + length (end_line (length trace.now))
        ≤ length out.old }
    ensures { written result out.new
        ≡ written_of out.old 0 (header_line ++ lines_of 0 (read_trace trace.now)
        ++ end_line (length trace.now)) }
{
    let a = lines::put_header(out, 0);
    let b = put_lines(trace, out, a);
    lines::put_end(out, b, trace.len())
}

// The text: its length, and in the lent bytes the text itself; bytes beyond it stay.
pub fn show_trace(trace: &[u8], text: &mut [u8; SHOWING_ROOM]) -> usize
    ensures text_after { written result text.new ≡ written_of text.old 0 (shown_of trace.now) }
    ensures upper_bound { result ≤ length text.new }
{
    match judge_short(trace) {
        Err(refusal) => listing::put_refusal(text, 0, refusal),
        Ok(()) => put_shown(trace, text),
    }
}
