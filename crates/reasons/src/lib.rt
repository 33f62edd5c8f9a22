// Document 02, R-1: why two instructions did not pair. One reason a retirement, and the run over a trace that writes
// it.
//
// `reason` has the reasons and the reason of one retirement, `explain` a retirement in place with its reason, and any
// event. The run here is the trace run (`trace`) with a third lent run.
#![tactic(auto)]

mod explain;
mod reason;

ghost use Rattle.std.specs.Prelude.{◌≡◌, length};
ghost use Rattle.in_place.specs.Lent.{lent, state_at};
ghost use Rattle.records.specs.Trace.{read_trace};
ghost use Rattle.records.specs.Judged.{FitsAnswers};
ghost use Rattle.refusals.specs.Runs.{runs};
ghost use Rattle.trace.specs.Run.{ran_at, trace_outcome, RoomFor};
ghost use Rattle.reasons.specs.ExplainRun.{explain_outcome, explain_outcome_by, explain_trace_of};

pub use explain::{Explained, explain_in_place};
use in_place::{WINDOW_NUMBERS, WindowNumbers};
use profile::Profile;
pub use reason::Reason;
use refusals::Ran;
use state::Oep060Timing;
use trace::Sums;

// Runs a trace whose records are all sound and whose three lent runs have room, on lent numbers.
// Stays beside `trace`'s run: one loop for both would take a closure over three lent runs and the state, no shorter.
fn explain_records(
    trace: &[u8],
    costs: &mut [u8],
    answers: &mut [u8],
    reasons: &mut [u8],
    tags: &mut [u32; 256],
    state: &mut [u8; 256],
    window: &mut WindowNumbers,
    profile: Profile,
) -> Sums
    requires room { RoomFor trace.now (runs costs.old answers.old) }
    requires fits_reasons { FitsAnswers 0 (length reasons.old) (read_trace trace.now) }
    ensures { explain_outcome (trace_outcome (ran_at result.count result.total (state_at (lent tags.new
        state.new window.new))) (runs costs.new answers.new))
        reasons.new
        ≡ explain_outcome_by profile (read_trace trace.now) (runs costs.old answers.old)
        reasons.old (state_at (lent tags.old state.old window.old)) }
{
    in_place::see_window(window);
    let mut count: usize = 0;
    let mut total: u64 = 0;
    for (_, event) in records::events_of(trace) {
        if let Some(told) = explain::explain_event(tags, state, window, profile, event) {
            total += told.cost.0 as u64;
            little_endian::put_u32(costs, count * 4, told.cost.0);
            answers[count] = u8::from(told.answer);
            reasons[count] = u8::from(told.reason);
            count += 1;
        }
    }
    Sums { count, total }
}

// The same from a state and to the next one. The state is copied here once, and handed back once.
fn explain_all(
    trace: &[u8],
    costs: &mut [u8],
    answers: &mut [u8],
    reasons: &mut [u8],
    timing: Oep060Timing,
    profile: Profile,
) -> Ran
    requires room { RoomFor trace.now (runs costs.old answers.old) }
    requires fits_reasons { FitsAnswers 0 (length reasons.old) (read_trace trace.now) }
    ensures { explain_outcome (trace_outcome result (runs costs.new answers.new))
        reasons.new
        ≡ explain_outcome_by profile (read_trace trace.now) (runs costs.old answers.old)
        reasons.old timing }
{
    let mut tags = timing.cache.tags;
    let mut state = timing.cache.state;
    let mut window = [0; WINDOW_NUMBERS];
    in_place::put_window(&mut window, timing.window);
    let sums = explain_records(
        trace,
        costs,
        answers,
        reasons,
        &mut tags,
        &mut state,
        &mut window,
        profile,
    );
    let last = in_place::timing_at(tags, state, window);
    Ran {
        verdict: Ok(()),
        count: sums.count,
        total: sums.total,
        timing: last,
    }
}

// Runs a trace and says why: all is checked first, and then 4 bytes, 1 byte and 1 byte are written for each retirement.
// Answers and reasons both take a byte, so that the shorter run decides.
pub fn explain_trace(
    trace: &[u8],
    costs: &mut [u8],
    answers: &mut [u8],
    reasons: &mut [u8],
    timing: Oep060Timing,
    profile: Profile,
) -> Ran
    ensures { explain_outcome (trace_outcome result (runs costs.new answers.new))
        reasons.new
        ≡ explain_trace_of profile trace.now (runs costs.old answers.old)
        reasons.old timing }
{
    let places = answers.len().min(reasons.len());
    match records::judge_trace(trace, costs.len(), places) {
        Err(refusal) => refusals::refused(refusal, timing),
        Ok(()) => explain_all(trace, costs, answers, reasons, timing, profile),
    }
}
