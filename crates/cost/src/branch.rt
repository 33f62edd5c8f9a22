// Part 5 of document 01: the branch's cost.
ghost use Rattle.std.specs.Prelude.{◌≡◌};
ghost use Rattle.class_word.specs.Word.{has, DBCC};
ghost use Rattle.cost.specs.Branch.{taken_of, answer_number, answer_at, heard, branch_of};

use class_word::{Clocks, F_DBCC};
use window::{Controls, Instruction};

const CYC_060_BRANCH_TAKEN: Clocks = Clocks(7);

const CYC_060_BRANCH_NOT_TAKEN: Clocks = Clocks(1);

const CYC_060_DBCC_TAKEN: Clocks = Clocks(2);

const CYC_060_DBCC_EXPIRED: Clocks = Clocks(3);

const CYC_060_MISPREDICT: Clocks = Clocks(7);

// What the branch cache said of a branch before it retired.
// Stays an enum of four, each with its number in document 02: an Option of an Option would name none of them.
#[derive(Clone, Copy)]
pub enum Answer {
    NotConsulted = 0,
    Miss = 1,
    PredictedNotTaken = 2,
    PredictedTaken = 3,
}

// What a branch costs, and what the branch cache said of it.
#[derive(Clone, Copy)]
pub struct BranchCost {
    pub cost: Clocks,
    pub answer: Answer,
}

// The number of an answer.
impl From<Answer> for u8 {
    ghost from_gives = { λ answer number. number ≡ answer_number answer };

    fn from(answer: Answer) -> u8 {
        answer as u8
    }
}

// The answer of a number; one that is no answer's is read as the last.
impl From<u8> for Answer {
    ghost from_gives = { λ number answer. answer ≡ answer_at number };

    fn from(number: u8) -> Answer {
        match number {
            0 => Answer::NotConsulted,
            1 => Answer::Miss,
            2 => Answer::PredictedNotTaken,
            _ => Answer::PredictedTaken,
        }
    }
}

// The answer of a cache that was asked, by what it predicted.
impl From<Option<bool>> for Answer {
    ghost from_gives = { λ predicted answer. answer ≡ heard predicted };

    fn from(predicted: Option<bool>) -> Answer {
        match predicted {
            None => Answer::Miss,
            Some(false) => Answer::PredictedNotTaken,
            Some(true) => Answer::PredictedTaken,
        }
    }
}

// Whether a branch is taken; DBcc does not raise `flowed`, so it is told by where it went.
#[tactic(auto, unfolding(crate::specs::Branch::taken_of))]
pub fn taken(i: Instruction, k: Controls) -> bool
    ensures { result ≡ taken_of i k }
{
    let fall_through = k.ppc.wrapping_add(4);
    if i.word.has(F_DBCC) {
        k.pc != fall_through
    } else {
        k.flowed
    }
}

// What a branch costs; the window is shut behind it.
pub fn charge_branch(i: Instruction, k: Controls, opened: bool, answer: Answer) -> BranchCost
    ensures { result ≡ branch_of (has i.word.0 DBCC) (taken_of i k) opened answer }
{
    branch_cost_060(i.word.has(F_DBCC), taken(i, k), opened, answer)
}

// The answer stands for EBC and the fetch too: with either off, the cache is not consulted.
pub fn branch_cost_060(is_dbcc: bool, taken: bool, opened: bool, answer: Answer) -> BranchCost
    ensures { result ≡ branch_of is_dbcc taken opened answer }
{
    let cost = match answer {
        Answer::NotConsulted => {
            if is_dbcc {
                if taken {
                    CYC_060_DBCC_TAKEN
                } else {
                    CYC_060_DBCC_EXPIRED
                }
            } else {
                if taken {
                    CYC_060_BRANCH_TAKEN
                } else {
                    CYC_060_BRANCH_NOT_TAKEN
                }
            }
        }
        Answer::Miss | Answer::PredictedNotTaken => {
            if taken { CYC_060_MISPREDICT } else { Clocks(1) }
        }
        Answer::PredictedTaken => {
            if taken {
                if opened { Clocks(0) } else { Clocks(1) }
            } else {
                CYC_060_MISPREDICT
            }
        }
    };
    BranchCost { cost, answer }
}
