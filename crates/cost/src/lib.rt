// Part 5 of document 01: what one retirement costs, and whether its instruction becomes the head.
//
// `branch` has the cost of a branch, by what the cache answered. Here are the other two points, flowed and neither,
// with the dispatch test of `window`. Nothing is stored: `step` and `in_place` ask the cache and put the next window.
#![tactic(auto)]

mod branch;

ghost use Rattle.std.specs.Prelude.{◌≡◌, ◌-◌, not, ◌==◌};
ghost use Rattle.class_word.specs.Word.{clocks, class_of};
ghost use Rattle.cost.specs.Retiring.{neither, other_point};
ghost use Rattle.cost.specs.Cost.{flow_cost, plain_of, base_of, pairs, as_head, charged_by};
ghost use Rattle.cost.specs.declared.branch.Answer.TheVariants.{NotConsulted};

pub use branch::{Answer, BranchCost, branch_cost_060, charge_branch, taken};
use class_word::{
    Clocks, F_DEFINES_CCR, F_EA_INDEXED, F_UNCLASSIFIED, F_VARIABLE, Info060, OepClass,
};
use window::{Controls, Instruction, RawCount, Window};

const CYC_060_FLOW_MIN: Clocks = Clocks(5);

// What one retirement costs, and whether its instruction becomes the head.
#[derive(Clone, Copy)]
pub struct Charged {
    pub cost: Clocks,
    pub heads: bool,
}

// The larger of the fallback and the refill's floor.
pub fn flow_cost(raw: RawCount) -> Clocks
    ensures { result ≡ clocks (flow_cost raw.0) }
{
    window::fallback_cycles(raw).max(CYC_060_FLOW_MIN)
}

// The base before the clock of an indexed operand.
#[tactic(auto, unfolding(crate::specs::Cost::plain_of))]
fn plain(word: Info060, raw: RawCount) -> Clocks
    ensures { result ≡ clocks (plain_of word.0 raw.0) }
{
    if word.has(F_VARIABLE) || word.has(F_UNCLASSIFIED) {
        window::fallback_cycles(raw)
    } else {
        word.cycles()
    }
}

#[tactic(auto, unfolding(crate::specs::Cost::base_of))]
fn base(i: Instruction, k: Controls) -> Clocks
    ensures { result ≡ clocks (base_of i k) }
{
    let cycles = plain(i.word, k.raw);
    if i.word.has(F_EA_INDEXED) {
        Clocks(cycles.0 + 1)
    } else {
        cycles
    }
}

// Whether an instruction that joins no pair becomes the head: class 1 occupies both pipelines.
fn leads(word: Info060) -> bool
    ensures { result ≡ not (class_of word.0 == 1) }
{
    word.class() != OepClass::PoepOnly
}

#[tactic(auto, unfolding(crate::specs::Cost::pairs))]
fn pairs(i: Instruction, k: Controls, w: Window) -> bool
    ensures { result ≡ pairs i k w }
{
    w.opened && window::soep_dispatch_test(i, k, w)
}

// One clock less, never below 0.
fn less_one(cycles: Clocks) -> Clocks
    ensures { result ≡ clocks (cycles.0 - 1) }
{
    Clocks(cycles.0.saturating_sub(1))
}

// What an instruction costs that is no branch and changed no flow, and whether it becomes the head.
pub fn charge_neither(i: Instruction, k: Controls, w: Window) -> Charged
    ensures { result ≡ charged_by neither i k w NotConsulted }
{
    let cycles = base(i, k);
    if pairs(i, k, w) {
        Charged {
            cost: less_one(cycles),
            heads: false, // a pair is full
        }
    } else {
        Charged {
            cost: cycles,
            heads: leads(i.word),
        }
    }
}

// What any other instruction costs, and whether it becomes the head.
pub fn charge_other(i: Instruction, k: Controls, w: Window) -> Charged
    ensures { result ≡ charged_by (other_point k) i k w NotConsulted }
{
    if k.flowed {
        Charged {
            cost: flow_cost(k.raw),
            heads: false,
        }
    } else {
        charge_neither(i, k, w)
    }
}

// The window with this instruction as head.
pub fn as_head(op: u16, i: Instruction, k: Controls) -> Window
    ensures { result ≡ as_head op i k }
{
    Window {
        opened: true,
        defs: i.defs,
        ccr: i.word.has(F_DEFINES_CCR),
        mem: window::memory(i.word),
        warm: k.cached,
        op,
        address: k.ppc,
    }
}
