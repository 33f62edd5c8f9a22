// Part 6 of document 01: the text that the cost lister prints.
//
// `lines` puts single lines (`text`); `table` puts the whole text of a trace that was run, and reads its records again
// for their opcodes. Here a trace is run (`trace`), its costs into bytes, and `table` is handed both. `replaying` calls
// `list_into`, the cost lister `list_trace`; `replaying` and `showing` put a refusal by `put_refusal`.
#![tactic(auto)]

mod lines;
mod table;

ghost use Rattle.std.specs.Prelude.{◌≡◌, ◌≤◌, length};
ghost use Rattle.refusals.specs.Runs.{runs};
ghost use Rattle.trace.specs.Run.{trace_outcome, trace_outcome_of};
ghost use Rattle.listing.specs.Listing.{short_trace_of, listing_outcome, list_trace_of};

pub use lines::{put_refusal, put_total};
use profile::Profile;
use refusals::{Ran, Refusal, Verdict};
use state::Oep060Timing;

// The longest trace that the tools take.
pub const MOST_LISTED_BYTES: usize = 65536;

// A trace of 65,536 bytes has at most so many retirements, of 20 bytes each.
const MOST_RETIREMENTS: usize = 3276;

// 4 bytes for the cost of each.
const COSTS_ROOM: usize = 13104;

// Room for the longest text: a line of at most 20 characters for each retirement, the header and the total.
pub const LISTING_ROOM: usize = 65600;

// What listing a trace gives.
// Stays a verdict beside values: a refused trace has a text and a state too.
#[derive(Clone, Copy)]
pub struct Listed {
    pub verdict: Verdict,
    // How many bytes of text there are.
    pub len: usize,
    // The next state.
    pub timing: Oep060Timing,
}

// Runs a trace of at most so many bytes; a longer one is refused.
fn run_short(
    trace: &[u8],
    costs: &mut [u8; COSTS_ROOM],
    answers: &mut [u8; MOST_RETIREMENTS],
    timing: Oep060Timing,
    profile: Profile,
) -> Ran
    ensures { trace_outcome result (runs costs.new answers.new)
        ≡ trace_outcome_of profile (short_trace_of trace.now) (runs costs.old answers.old)
        timing }
{
    if MOST_LISTED_BYTES < trace.len() {
        return refusals::refused(Refusal::Oversized, timing);
    }
    trace::run_trace(trace, costs, answers, timing, profile)
}

// Lists a trace into lent bytes that have room for any; the replay's have more.
pub fn list_into(trace: &[u8], out: &mut [u8], timing: Oep060Timing, profile: Profile) -> Listed
    requires { 65600 ≤ length out.old }
    ensures { listing_outcome result out.new
        ≡ list_trace_of profile trace.now out.old timing }
{
    let mut costs = [0u8; COSTS_ROOM];
    // The lister prints no answer.
    let mut answers = [0u8; MOST_RETIREMENTS];
    let ran = run_short(trace, &mut costs, &mut answers, timing, profile);
    let len = table::put_text(trace, &costs, out, ran.verdict, ran.count, ran.total);
    Listed {
        verdict: ran.verdict,
        len,
        timing: ran.timing,
    }
}

// The cost lister's text: its length, and in the lent bytes the text itself; bytes beyond it stay.
pub fn list_trace(
    trace: &[u8],
    text: &mut [u8; LISTING_ROOM],
    timing: Oep060Timing,
    profile: Profile,
) -> Listed
    ensures text_after { listing_outcome result text.new
        ≡ list_trace_of profile trace.now text.old timing }
    ensures len_in_bounds { result.len ≤ length text.new }
{
    list_into(trace, text, timing, profile)
}
