// Part 6 of document 01: what a trace says, record by record, and whether it is taken.
//
// `kinds` has the kinds of records, `layout` their bytes, `faults` what is wrong with one, and `record` reads what
// stands at a place, and tells a whole retirement at a look; `events` walks them. Here all records of a trace are
// checked before any is run, since a refused run writes nothing. `showing`, which writes no costs, calls `check_all`,
// which asks for no room.
#![tactic(auto)]

mod events;
mod faults;
mod kinds;
mod layout;
mod record;

ghost use Rattle.std.specs.Prelude.{◌≡◌, [], ◌∷◌};
ghost use Rattle.records.specs.Trace.{checked_of, read_trace};
ghost use Rattle.records.specs.Judged.{judged_trace, verdict_of};
ghost use Rattle.state.specs.Events.{count_of};
ghost use Rattle.refusals.specs.Runs.{rooms};

pub use events::{Events, events_of};
pub use kinds::{Kind, UnknownKind};
pub use layout::retirement_at;
pub use record::{read_record, whole_at};
use refusals::{Refusal, Verdict};
use state::Event;

// The longest trace that is taken.
const MOST_TRACE_BYTES: usize = 16777216;

// 1 for a retirement, 0 for any other event.
fn counted(e: Event) -> usize
    ensures { result ≡ count_of (e ∷ []) }
{
    usize::from(matches!(e, Event::Retired(_)))
}

// Checks all records: the number of retirements, or the first refusal.
// Stays a loop over places: an iterator would make an event of each whole retirement, which is counted without one.
pub fn check_all(trace: &[u8]) -> Result<usize, Refusal>
    ensures { result ≡ checked_of (read_trace trace.now) }
{
    let mut at: usize = 0;
    let mut count: usize = 0;
    loop {
        if record::sound_at(trace, at) {
            count += 1;
            at += 20;
            continue;
        }
        let Some((e, next)) = read_record(trace, at)? else {
            return Ok(count);
        };
        count += counted(e);
        at = next;
    }
}

// Whether a trace is taken with so many bytes lent for its costs, 4 for each retirement, and for its answers, 1 for
// each.
#[tactic(auto, unfolding(crate::specs::Judged::judged_trace))]
pub fn judge_trace(trace: &[u8], costs: usize, answers: usize) -> Verdict
    ensures { result ≡ verdict_of (judged_trace trace.now (rooms costs answers)) }
{
    if MOST_TRACE_BYTES < trace.len() {
        return Err(Refusal::Oversized);
    }
    let count = check_all(trace)?;
    if costs / 4 < count || answers < count {
        return Err(Refusal::Room(trace.len()));
    }
    Ok(())
}
