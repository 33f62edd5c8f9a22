// The proofreader's page: what the program `rule_page` prints.
//
// `names` has the rules and the modes by name, `words` a class word as text, `lines` single lines; here they are put
// one behind the other. Only `put_page` is called from outside.
#![tactic(auto, using(crate::proofs::Each::each))]

mod lines;
mod names;
mod words;

ghost use Rattle.std.specs.Prelude.{◌≡◌, ◌+◌, ◌≤◌, length};
ghost use Rattle.text.specs.Written.{written, written_of};
ghost use Rattle.classifier.specs.Rules.{rule_count};
ghost use Rattle.rule_text.specs.Each.{each_from};
ghost use Rattle.rule_text.specs.Names.{mode_count};
ghost use Rattle.rule_text.specs.Lines.{mode_line};
ghost use Rattle.rule_text.specs.Page.{runs_text, rule_text, page_text};

use lines::{ROWS, Row};
use names::{Mode, Rule};

const MODES: u16 = names::MODE_NAMES.len() as u16;

const RULES: u8 = names::RULES.len() as u8;

// Room for the page: at most 40 characters for each row and 2,000 for each rule, and the closing line.
pub const PAGE_ROOM: usize = 100000;

// Part one.
// Stays a loop each for rows, modes and rules: one over a closure would say in its contract what the closure puts.
fn put_rows(out: &mut [u8], start: usize) -> usize
    requires { start + length runs_text ≤ length out.old }
    ensures { written result out.new ≡ written_of out.old start runs_text }
{
    let mut place = start;
    for number in 0..ROWS {
        place = lines::put_row(out, place, Row { number });
    }
    place
}

// What a rule gives for each operand mode.
fn put_modes(out: &mut [u8], start: usize, rule: Rule) -> usize
    requires { start + length (each_from 0 mode_count (mode_line rule.number)) ≤ length out.old }
    ensures { written result out.new
        ≡ written_of out.old start (each_from 0 mode_count (mode_line rule.number)) }
{
    let mut place = start;
    for number in 0..MODES {
        place = lines::put_mode_line(out, place, rule, Mode { number });
    }
    place
}

fn put_rule(out: &mut [u8], at: usize, rule: Rule) -> usize
    requires { at + length (rule_text rule.number) ≤ length out.old }
    ensures { written result out.new ≡ written_of out.old at (rule_text rule.number) }
{
    let a = lines::put_heading(out, at, rule);
    put_modes(out, a, rule)
}

// Part two.
fn put_rules(out: &mut [u8], start: usize) -> usize
    requires { start + length (each_from 0 rule_count rule_text) ≤ length out.old }
    ensures { written result out.new
        ≡ written_of out.old start (each_from 0 rule_count rule_text) }
{
    let mut place = start;
    for number in 0..RULES {
        place = put_rule(out, place, Rule { number });
    }
    place
}

// The page: its length, and in the lent bytes the page itself; bytes beyond it stay.
#[tactic(auto, using(crate::proofs::Each::each, crate::proofs::Lengths::page_most))]
pub fn put_page(text: &mut [u8; PAGE_ROOM]) -> usize
    ensures text_after { written result text.new ≡ written_of text.old 0 page_text }
    ensures upper_bound { result ≤ length text.new }
{
    let a = put_rows(text, 0);
    let b = put_rules(text, a);
    lines::put_closing(text, b)
}
