// The reason of one retirement, by what it is and what it met.
ghost use Rattle.std.specs.Prelude.{◌≡◌};
ghost use Rattle.std.specs.Int.Bits.{bit_and, bit_or};
ghost use Rattle.cost.specs.Retiring.{point_of};
ghost use Rattle.reasons.specs.Reasons.{reason_number, of_rule, other_reason};
ghost use Rattle.reasons.specs.Reasons.{asked_reason, branch_reason, reason_by};

use class_word::F_BRANCH;
use cost::Answer;
use window::{Controls, Instruction, Rule, Window};

// Why a retirement costs what it costs; first what any but branches and flow can have, then flow, then branches.
#[derive(Clone, Copy, PartialEq, Eq)]
pub enum Reason {
    Paired = 0,
    WindowShut = 1,
    EssOff = 2,
    NotCached = 3,
    NotSimple = 4,
    Register = 5,
    Ccr = 6,
    Memory = 7,
    Refill = 8,
    Folded = 9,
    Alone = 10,
    NotTaken = 11,
    Mispredicted = 12,
    Static = 13,
}

// The number of a reason.
impl From<Reason> for u8 {
    ghost from_gives = { λ reason number. number ≡ reason_number reason };

    fn from(reason: Reason) -> u8 {
        reason as u8
    }
}

// The reason that a rule of the dispatch test failed.
impl From<Rule> for Reason {
    ghost from_gives = { λ rule reason. reason ≡ of_rule rule };

    fn from(rule: Rule) -> Reason {
        match rule {
            Rule::EssOn => Reason::EssOff,
            Rule::BothCached => Reason::NotCached,
            Rule::Simple => Reason::NotSimple,
            Rule::RegistersFree => Reason::Register,
            Rule::NoLateCcr => Reason::Ccr,
            Rule::OneMemory => Reason::Memory,
        }
    }
}

// Neither a branch nor flow: the rules are tried only behind a head.
fn other_reason(i: Instruction, k: Controls, w: Window) -> Reason
    ensures { result ≡ other_reason i k w }
{
    if !w.opened {
        return Reason::WindowShut;
    }
    match window::failing(i, k, w) {
        None => Reason::Paired,
        Some(rule) => Reason::from(rule),
    }
}

// A branch of which the cache was asked.
fn asked_reason(predicted: bool, taken: bool, opened: bool) -> Reason
    ensures { result ≡ asked_reason predicted taken opened }
{
    match (predicted, taken, opened) {
        (true, true, true) => Reason::Folded,
        (true, true, false) => Reason::Alone,
        (false, false, _) => Reason::NotTaken,
        (true, false, _) | (false, true, _) => Reason::Mispredicted,
    }
}

// A miss counts as predicted not taken.
fn branch_reason(taken: bool, opened: bool, answer: Answer) -> Reason
    ensures { result ≡ branch_reason taken opened answer }
{
    match answer {
        Answer::NotConsulted => Reason::Static,
        Answer::Miss | Answer::PredictedNotTaken => asked_reason(false, taken, opened),
        Answer::PredictedTaken => asked_reason(true, taken, opened),
    }
}

// The window is the one before the retirement.
pub fn reason_of(i: Instruction, k: Controls, w: Window, answer: Answer) -> Reason
    ensures { result ≡ reason_by (point_of i k) i k w answer }
{
    if i.word.has(F_BRANCH) {
        return branch_reason(cost::taken(i, k), w.opened, answer);
    }
    if k.flowed {
        return Reason::Refill;
    }
    other_reason(i, k, w)
}

// The registers that stand in the way.
pub fn shared(i: Instruction, w: Window) -> u16
    ensures { result ≡ bit_and (bit_or i.uses i.defs) w.defs }
{
    (i.uses | i.defs) & w.defs
}
