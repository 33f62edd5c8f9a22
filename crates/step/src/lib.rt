// Part 5 of document 01: one retirement by value, from state to state, as the Rust reads.
//
// `in_place` has the same step on lent numbers, for runs and hosts; both equal `stepped_of`.
#![tactic(auto)]

ghost use Rattle.std.specs.Prelude.{◌≡◌, true, false};
ghost use Rattle.class_word.specs.Word.{has, BRANCH};
ghost use Rattle.profile.specs.Profile.{profile_of};
ghost use Rattle.state.specs.Events.{answer_of};
ghost use Rattle.state.specs.CrateCache.{crate_cache};
ghost use Rattle.state.specs.Timing.{stepped_by};
ghost use Rattle.step.specs.Boards.{stepped_of};

use branch_cache::BranchCache060;
use class_word::{F_BRANCH, F_DBCC};
use classifier::info_060;
use cost::{Answer, branch_cost_060};
use masks::reg_masks_060;
use profile::Profile;
use state::{Oep060Timing, Retirement, Stepped};
use window::{Controls, Instruction, Window};

// A state, and the profile that is chosen for it at start.
#[derive(Clone, Copy)]
pub struct Chosen {
    pub timing: Oep060Timing,
    pub profile: Profile,
}

// What the cache says of a branch before it is updated.
#[tactic(auto, unfolding(state::specs::Events::answer_of))]
fn answered(cache: BranchCache060, i: Instruction, k: Controls) -> Answer
    ensures { result ≡ answer_of crate_cache cache i k }
{
    if state::consulted(i, k) {
        Answer::from(cache.predict(k.ppc))
    } else {
        Answer::NotConsulted
    }
}

// The window is noted, then shut; the cache is asked, and then updated.
fn branch_060(mut timing: Oep060Timing, i: Instruction, r: Retirement) -> Stepped
    requires { has i.word.0 BRANCH ≡ true }
    ensures { result ≡ stepped_by timing i r }
{
    let k = r.controls;
    let taken = cost::taken(i, k);
    let opened = timing.window.opened;
    timing.window = Window::shut();
    let predicted = answered(timing.cache, i, k);
    let charged = branch_cost_060(i.word.has(F_DBCC), taken, opened, predicted);
    if state::consulted(i, k) {
        timing.cache = timing.cache.update(k.ppc, taken, !k.supervisor);
    }
    Stepped {
        timing,
        cost: charged.cost,
        answer: charged.answer,
    }
}

// Another change of flow, or neither: the dispatch test is in what it is charged.
fn other_060(mut timing: Oep060Timing, i: Instruction, r: Retirement) -> Stepped
    requires { has i.word.0 BRANCH ≡ false }
    ensures { result ≡ stepped_by timing i r }
{
    let k = r.controls;
    let charged = cost::charge_other(i, k, timing.window);
    timing.window = if charged.heads {
        cost::as_head(r.op, i, k)
    } else {
        Window::shut()
    };
    Stepped {
        timing,
        cost: charged.cost,
        answer: Answer::NotConsulted, // only a branch asks the cache
    }
}

// The Rust's lookup of an opcode, read in the profile.
pub fn looked_up(profile: Profile, op: u16) -> Instruction
    ensures { result ≡ profile_of profile op }
{
    let info = info_060(op);
    let masks = reg_masks_060(op);
    let i = Instruction {
        word: info,
        uses: masks.uses,
        defs: masks.defs,
    };
    profile::read_in(profile, op, i)
}

// The Rust's cycles_060.
pub fn cycles_060(chosen: Chosen, r: Retirement) -> Stepped
    ensures { result ≡ stepped_of chosen.profile chosen.timing r }
{
    let profile = chosen.profile;
    let i = looked_up(profile, r.op);
    if i.word.has(F_BRANCH) {
        branch_060(chosen.timing, i, r)
    } else {
        other_060(chosen.timing, i, r)
    }
}
