// Document 02, R-1: what the program `why` prints.
//
// `words` puts what stands in the columns, `registers` those that stand in the way, `lines` the line of a retirement,
// `counts` the lines of the reasons. Here all records of a trace are checked first (`records`), since a refusal is the
// whole output; then each is read again and its event done in place, and a retirement's line is put as it is explained
// (`reasons`). Only `why_text` is called from outside.
#![tactic(auto, using(rule_text::proofs::Each::each))]

mod counts;
mod lines;
mod registers;
mod words;

ghost use Rattle.std.specs.Prelude.{◌≡◌, ◌+◌, ◌≤◌, length};
ghost use Rattle.text.specs.Written.{written, written_of};
ghost use Rattle.state.specs.Timing.{seen_of};
ghost use Rattle.in_place.specs.Lent.{lent, state_at};
ghost use Rattle.records.specs.Trace.{read_trace};
ghost use Rattle.records.specs.Judged.{FitsAnswers};
ghost use Rattle.explaining.specs.WhyLines.{why_lines};
ghost use Rattle.explaining.specs.Why.{why_text_by, why_of};
ghost use Rattle.explaining.specs.Inner.{met_by, Lined};

use crate::counts::Counts;
use in_place::{WINDOW_NUMBERS, WindowNumbers};
use profile::Profile;
use state::{Event, Oep060Timing};

// Room for the longest text: 3,276 retirements of 20 bytes, a line of at most 115 characters each, 55 of the header, 48
// of the total, and 14 lines of the reasons of at most 34 characters.
pub const WHY_ROOM: usize = 377319;

// What the lines of all retirements come to: the place behind them, how many there are, the sum of their costs, and
// how many have each reason.
#[derive(Clone, Copy)]
struct Put {
    place: usize,
    count: usize,
    total: u64,
    counts: Counts,
}

// A line for each retirement of a trace whose records are all sound, at most 3,276, stepped on lent numbers.
// Stays a `requires` that stands twice here (`FitsAnswers`): it bounds how many lines there are, by the trace alone.
fn put_lines(
    trace: &[u8],
    out: &mut [u8],
    start: usize,
    tags: &mut [u32; 256],
    state: &mut [u8; 256],
    window: &mut WindowNumbers,
    profile: Profile,
    full: bool,
) -> Put
    requires fits_answers { FitsAnswers 0 3276 (read_trace trace.now) }
    requires trace_in_bounds { start + length (why_lines full 0 (met_by profile (state_at (lent tags.old
        state.old window.old)) (read_trace trace.now))) ≤ length out.old }
    ensures { Lined full out.old start (met_by profile (state_at (lent tags.old
        state.old window.old)) (read_trace trace.now)) result out.new }
{
    let mut place = start;
    let mut index: usize = 0;
    let mut total: u64 = 0;
    let mut counts = [0; counts::REASONS.len()];
    // No record is refused: all are sound.
    for (_, event) in records::events_of(trace) {
        if let Event::Retired(r) = event {
            let x = reasons::explain_in_place(tags, state, window, profile, r);
            place = lines::put_line(out, place, full, index, r.op, x);
            counts::count_one(&mut counts, x.reason);
            total += x.cost.0 as u64;
            index += 1;
        } else {
            in_place::event_at(tags, state, window, profile, event);
        }
    }
    Put {
        place,
        count: index,
        total,
        counts,
    }
}

// The whole text of a trace whose records are all sound.
fn put_table(
    trace: &[u8],
    out: &mut [u8],
    timing: Oep060Timing,
    profile: Profile,
    full: bool,
) -> usize
    requires fits_answers { FitsAnswers 0 3276 (read_trace trace.now) }
    requires trace_in_bounds { length (why_lines full 0 (met_by profile (seen_of timing) (read_trace trace.now))) + 579
        ≤ length out.old }
    ensures { written result out.new
        ≡ written_of out.old 0 (why_text_by full profile (read_trace trace.now) timing) }
{
    let mut tags = timing.cache.tags;
    let mut state = timing.cache.state;
    let mut window = [0; WINDOW_NUMBERS];
    let read = timing.window.seen();
    in_place::put_window(&mut window, read);
    let a = lines::put_header(out, 0, full);
    let put = put_lines(
        trace,
        out,
        a,
        &mut tags,
        &mut state,
        &mut window,
        profile,
        full,
    );
    let b = listing::put_total(out, put.place, put.count, put.total);
    counts::put_counts(out, b, full, &put.counts)
}

// The text: its length, and in the lent bytes the text itself; bytes beyond it stay.
pub fn why_text(
    trace: &[u8],
    text: &mut [u8; WHY_ROOM],
    timing: Oep060Timing,
    profile: Profile,
    full: bool,
) -> usize
    ensures text_after { written result text.new
        ≡ written_of text.old 0 (why_of full profile trace.now timing) }
    ensures upper_bound { result ≤ length text.new }
{
    match showing::judge_short(trace) {
        Err(refusal) => listing::put_refusal(text, 0, refusal),
        Ok(()) => put_table(trace, text, timing, profile, full),
    }
}
