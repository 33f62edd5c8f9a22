// Part 6 of document 01: the run over a trace.
//
// All records are checked first (`records`), since a refused run writes no byte; then each is read again and its event
// done in place (`running`), and its cost and its answer are put behind the others. Each opcode is looked up once a run
// (`in_place::Decoded`), in a table that the run makes anew: a host lends none that it could spoil.
#![tactic(auto)]

mod running;

ghost use Rattle.std.specs.Prelude.{◌≡◌};
ghost use Rattle.in_place.specs.Lent.{lent, state_at};
ghost use Rattle.records.specs.Trace.{read_trace};
ghost use Rattle.refusals.specs.Runs.{runs};
ghost use Rattle.trace.specs.Run.{ran_at, trace_outcome, trace_outcome_of, RoomFor, run_trace_of};

use in_place::{Decoded, WINDOW_NUMBERS, WindowNumbers};
use profile::Profile;
use refusals::Ran;
use state::Oep060Timing;

// What the turns of all records come to.
#[derive(Clone, Copy)]
pub struct Sums {
    pub count: usize,
    pub total: u64,
}

// Runs a trace whose records are all sound and whose costs and answers have room, on lent numbers.
// Stays a `requires` that stands four times, here and in `reasons`: it joins a trace with runs that are lent apart.
// Stays a while over places: to test a whole retirement's flags again cost 0.3 to 1.7 ns (docs/DECISIONS.md).
fn run_records(
    trace: &[u8],
    costs: &mut [u8],
    answers: &mut [u8],
    tags: &mut [u32; 256],
    state: &mut [u8; 256],
    window: &mut WindowNumbers,
    profile: Profile,
) -> Sums
    requires { RoomFor trace.now (runs costs.old answers.old) }
    ensures { trace_outcome (ran_at result.count result.total (state_at (lent tags.new state.new
        window.new))) (runs costs.new answers.new)
        ≡ trace_outcome_of profile (read_trace trace.now) (runs costs.old answers.old)
        (state_at (lent tags.old state.old window.old)) }
{
    in_place::see_window(window);
    let mut decoded = Decoded::new(profile);
    let mut at: usize = 0;
    let mut count: usize = 0;
    let mut total: u64 = 0;
    while at < trace.len() {
        let turn = running::run_checked(trace, tags, state, window, &mut decoded, at);
        at = turn.next;
        if let Some(paid) = turn.paid {
            total += paid.cost.0 as u64;
            little_endian::put_u32(costs, count * 4, paid.cost.0);
            answers[count] = paid.answer;
            count += 1;
        }
    }
    Sums { count, total }
}

// The same from a state and to the next one. The state is copied here once, and handed back once.
// Stays laid out here, in `reasons` and in `explaining`: a closure for it would take three lent references, as this.
fn run_all(
    trace: &[u8],
    costs: &mut [u8],
    answers: &mut [u8],
    timing: Oep060Timing,
    profile: Profile,
) -> Ran
    requires { RoomFor trace.now (runs costs.old answers.old) }
    ensures { trace_outcome result (runs costs.new answers.new)
        ≡ trace_outcome_of profile (read_trace trace.now) (runs costs.old answers.old)
        timing }
{
    let mut tags = timing.cache.tags;
    let mut state = timing.cache.state;
    let mut window = [0; WINDOW_NUMBERS];
    in_place::put_window(&mut window, timing.window);
    let sums = run_records(
        trace,
        costs,
        answers,
        &mut tags,
        &mut state,
        &mut window,
        profile,
    );
    let last = in_place::timing_at(tags, state, window);
    Ran {
        verdict: Ok(()),
        count: sums.count,
        total: sums.total,
        timing: last,
    }
}

// Runs a trace: all is checked first, and then 4 bytes and 1 byte are written for each retirement.
// Stays a state and a profile apart, as in the runs above this: their clauses and theorems name each alone.
pub fn run_trace(
    trace: &[u8],
    costs: &mut [u8],
    answers: &mut [u8],
    timing: Oep060Timing,
    profile: Profile,
) -> Ran
    ensures { trace_outcome result (runs costs.new answers.new)
        ≡ run_trace_of profile trace.now (runs costs.old answers.old) timing }
{
    match records::judge_trace(trace, costs.len(), answers.len()) {
        Err(refusal) => refusals::refused(refusal, timing),
        Ok(()) => run_all(trace, costs, answers, timing, profile),
    }
}
