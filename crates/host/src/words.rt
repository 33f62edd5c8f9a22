// A batch of 32-bit words: the retirements that they stand for, run in place on lent numbers.
ghost use Rattle.std.specs.Prelude.{◌≡◌, ◌+◌, ◌*◌, ◌/◌, ◌≤◌, length};
ghost use Rattle.profile.specs.Profile.{profile_at};
ghost use Rattle.refusals.specs.Verdict.{accepted};
ghost use Rattle.batch.specs.Batch.{batch_accepted_of};
ghost use Rattle.in_place.specs.Lent.{lent, state_at};
ghost use Rattle.in_place.specs.Retire.{paid_by, retire_at_of};
ghost use Rattle.refusals.specs.Runs.{runs};
ghost use Rattle.host.specs.HostRan.{host_ran_of, host_outcome};
ghost use Rattle.host.specs.HostWords.{words_at, retirements_of, host_outcome_of_batch, run_batch_at_of};

use crate::results::{HostRan, host_ran};
use class_word::F_BRANCH;
use in_place::{Decoded, WindowNumbers, answer_in, clocks_in, see_window};
use profile::Profile;
use window::RawCount;

// The record of the words from 4 * i on, which are there, retired in place, its opcode looked up in the run's table:
// its clocks and what the cache predicted.
// Stays three points taken apart here and in `trace`: a function of all three would stay a call (docs/SPEED.md).
fn retire_record(
    records: &[u32],
    i: usize,
    tags: &mut [u32; 256],
    state: &mut [u8; 256],
    window: &mut WindowNumbers,
    decoded: &mut Decoded,
) -> u64
    requires { 4 * i + 4 ≤ length records.now }
    ensures window_after { paid_by result (lent tags.new state.new window.new)
        ≡ retire_at_of decoded.old.profile (lent tags.old state.old window.old)
        (words_at records.now i) }
    ensures profile_after { decoded.new.profile ≡ decoded.old.profile }
{
    let at = 4 * i;
    let head = records[at];
    let ppc = records[at + 1];
    let pc = records[at + 2];
    let raw = RawCount(little_endian::i32_of(records[at + 3]));
    let op = (head & 0xFFFF) as u16;
    let k = state::controls_of((head >> 16) as u16, ppc, pc, raw);
    let instruction = decoded.look_up(tags, state, window, op);
    if instruction.word.has(F_BRANCH) {
        return in_place::retire_branch(tags, state, window, instruction, k);
    }
    if k.flowed {
        return in_place::retire_flow(window, k);
    }
    in_place::retire_neither(window, op, instruction, k)
}

// The records of a batch that is accepted, each in place, in a profile: their total.
// Stays an index: costs and answers are stored by it, and a record's clause (`words_at`) goes by it.
fn run_words(
    records: &[u32],
    costs: &mut [u32],
    answers: &mut [u8],
    tags: &mut [u32; 256],
    state: &mut [u8; 256],
    window: &mut WindowNumbers,
    profile: Profile,
) -> u64
    requires { (length records.now / 4 ≤ length costs.old) × (length records.now / 4 ≤ length answers.old)
        × (length records.now / 4 ≤ 1048576) }
    ensures { host_outcome (host_ran_of accepted (length records.now / 4) result) (runs costs.new
        answers.new) (lent tags.new state.new window.new)
        ≡ host_outcome_of_batch (lent tags.old state.old window.old)
        (batch_accepted_of profile (retirements_of records.now) (runs costs.old
        answers.old) (state_at (lent tags.old state.old window.old))) }
{
    let count = records.len() / 4;
    see_window(window);
    let mut decoded = Decoded::new(profile);
    let mut total: u64 = 0;
    for i in 0..count {
        let told = retire_record(records, i, tags, state, window, &mut decoded);
        let cost = clocks_in(told);
        costs[i] = cost.0;
        answers[i] = answer_in(told);
        total += cost.0 as u64;
    }
    total
}

// A batch of records of four words each; words beyond the last whole record are not read.
pub fn run_batch_at(
    records: &[u32],
    costs: &mut [u32],
    answers: &mut [u8],
    tags: &mut [u32; 256],
    state: &mut [u8; 256],
    window: &mut WindowNumbers,
    profile: u32,
) -> HostRan
    ensures { host_outcome result (runs costs.new answers.new) (lent tags.new
        state.new window.new)
        ≡ run_batch_at_of (profile_at profile) records.now (runs costs.old answers.old)
        (lent tags.old state.old window.old) }
{
    let count = records.len() / 4;
    match batch::batch_verdict(count, costs.len(), answers.len()) {
        Err(refusal) => host_ran(Err(refusal), 0, 0),
        Ok(()) => {
            let p = Profile::from(profile);
            let total = run_words(records, costs, answers, tags, state, window, p);
            host_ran(Ok(()), count, total)
        }
    }
}
