// Part 6 of document 01: the batch, a lent run of retirement records, its costs into lent 32-bit places, and its
// answers into lent bytes.
//
// `run_batch` judges first, since a refused batch writes no place; then each record is copied out, handed to the step
// by value (`step`), and paid. The state and its profile come as the step takes them. `host` judges by `batch_verdict`
// too, and runs a batch of words in place.
#![tactic(auto)]

ghost use Rattle.std.specs.Prelude.{◌≡◌, ◌≤◌, length, take};
ghost use Rattle.refusals.specs.Runs.{rooms, runs};
ghost use Rattle.batch.specs.Judge.{batch_verdict_of};
ghost use Rattle.batch.specs.Batch.{batch_outcome, batch_accepted_of, batch_of};

use refusals::{Ran, Refusal, Verdict};
use state::Retirement;
use step::{Chosen, cycles_060};

// More records are refused.
const MOST_RECORDS: usize = 1048576;

// Refusal 1 before refusal 7.
#[tactic(auto, unfolding(crate::specs::Judge::batch_verdict_of))]
pub fn batch_verdict(records: usize, costs: usize, answers: usize) -> Verdict
    ensures { result ≡ batch_verdict_of records (rooms costs answers) }
{
    if MOST_RECORDS < records {
        return Err(Refusal::Oversized);
    }
    if costs < records || answers < records {
        return Err(Refusal::Room(0));
    }
    Ok(())
}

// A batch that is accepted: each record is copied out of the lent run and handed to the step, and its cost and its
// answer are stored. Up to 1,048,576 costs below 2^32 cannot wrap the total.
fn run_all(rs: &[Retirement], costs: &mut [u32], answers: &mut [u8], chosen: Chosen) -> Ran
    requires few { length rs.now ≤ 1048576 }
    requires costs_fit { length rs.now ≤ length costs.old }
    requires answers_fit { length rs.now ≤ length answers.old }
    ensures { batch_outcome result (runs costs.new answers.new)
        ≡ batch_accepted_of chosen.profile rs.now (runs costs.old answers.old)
        chosen.timing }
{
    let profile = chosen.profile;
    let mut timing = chosen.timing.seen();
    let mut total: u64 = 0;
    for (i, r) in rs.iter().enumerate() {
        let stepped = cycles_060(Chosen { timing, profile }, *r);
        let cost = stepped.cost.0;
        costs[i] = cost;
        answers[i] = u8::from(stepped.answer);
        total += cost as u64;
        timing = stepped.timing;
    }
    Ran {
        verdict: Ok(()),
        count: rs.len(),
        total,
        timing,
    }
}

// The batch.
pub fn run_batch(rs: &[Retirement], costs: &mut [u32], answers: &mut [u8], chosen: Chosen) -> Ran
    ensures { batch_outcome result (runs costs.new answers.new)
        ≡ batch_of chosen.profile rs.now (runs costs.old answers.old)
        chosen.timing }
{
    match batch_verdict(rs.len(), costs.len(), answers.len()) {
        Err(refusal) => refusals::refused(refusal, chosen.timing),
        Ok(()) => run_all(rs, costs, answers, chosen),
    }
}

// The batch for a caller with no lent run: the first n of 64 records, or all.
// Stays an array with a count: `promises/specs/ByHand.antt` speaks of it, and docs/SPEED.md measures it.
pub fn run_batch_of_64(
    rs: [Retirement; 64],
    n: usize,
    costs: &mut [u32],
    answers: &mut [u8],
    chosen: Chosen,
) -> Ran
    ensures { batch_outcome result (runs costs.new answers.new)
        ≡ batch_of chosen.profile (take n rs) (runs costs.old answers.old)
        chosen.timing }
{
    run_batch(&rs[..n.min(64)], costs, answers, chosen)
}
