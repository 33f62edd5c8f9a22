// Document 01, "One retirement": its three points on lent numbers, of an instruction that was looked up.
// Stays three functions, taken apart in single step, batch and trace run: one of all three would stay a call in each.
ghost use Rattle.std.specs.Prelude.{◌≡◌, true, false, List, ℕ};
ghost use Rattle.class_word.specs.Word.{has, BRANCH};
ghost use Rattle.window.specs.declared.dispatch.Instruction.{Instruction};
ghost use Rattle.in_place.specs.Lent.{lent};
ghost use Rattle.in_place.specs.Retire.{paid_by, retire_by_of};

use crate::ask::ask_told;
use crate::told::told;
use crate::windows::{WindowNumbers, put_head, shut_window, window_at};
use class_word::F_DBCC;
use cost::Answer;
use window::{Controls, Instruction};

// The first point: only a branch asks the cache.
pub fn retire_branch(
    tags: &mut [u32; 256],
    state: &mut [u8; 256],
    window: &mut WindowNumbers,
    i: Instruction,
    k: Controls,
) -> u64
    // A branch: each caller looks at this flag first.
    requires { has i.word.0 BRANCH ≡ true }
    ensures { (op : ℕ) → paid_by result (lent tags.new state.new window.new)
        ≡ retire_by_of i op k (lent tags.old state.old window.old) }
{
    let taken = cost::taken(i, k);
    let predicted = ask_told(tags, state, i, k, taken);
    let w = window_at(*window);
    shut_window(window);
    let branch = cost::branch_cost_060(i.word.has(F_DBCC), taken, w.opened, predicted);
    told(branch.cost, branch.answer)
}

// The second: another change of flow. Tags and slots stay, and are not lent.
pub fn retire_flow(window: &mut WindowNumbers, k: Controls) -> u64
    // No branch, and it flowed: each caller looks at both first.
    requires { k.flowed ≡ true }
    ensures { (i : Instruction) → has i.word.0 BRANCH ≡ false → (op : ℕ) (tags state : List ℕ)
        → paid_by result (lent tags state window.new)
        ≡ retire_by_of i op k (lent tags state window.old) }
{
    shut_window(window);
    let flow = cost::flow_cost(k.raw);
    told(flow, Answer::NotConsulted)
}

// The third: neither. Tags and slots stay, and are not lent.
pub fn retire_neither(window: &mut WindowNumbers, op: u16, i: Instruction, k: Controls) -> u64
    // No branch, and it did not flow: each caller looks at both first.
    requires { (has i.word.0 BRANCH ≡ false) × (k.flowed ≡ false) }
    ensures { (tags state : List ℕ) → paid_by result (lent tags state window.new)
        ≡ retire_by_of i op k (lent tags state window.old) }
{
    let w = window_at(*window);
    let charged = cost::charge_neither(i, k, w);
    if charged.heads {
        put_head(window, op, i, k);
    } else {
        shut_window(window);
    }
    told(charged.cost, Answer::NotConsulted)
}
