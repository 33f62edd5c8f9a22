// The lines of the page of the rules.
ghost use Rattle.std.specs.Prelude.{◌≡◌, ◌+◌, ◌≤◌, ◌<◌, cond, [], length};
ghost use Rattle.text.specs.Written.{written, written_of};
ghost use Rattle.classifier.specs.Rules.{rule_of};
ghost use Rattle.rule_text.specs.Lines.{row_count, begins, ends, run_begins, run_ends, row_text};
ghost use Rattle.rule_text.specs.Lines.{heading_line, mode_line, closing_line};

use crate::names::{Mode, Rule};
use crate::words;

pub const ROWS: u16 = 1024;

const LAST_ROW: u16 = ROWS - 1;

// A row of the table: 64 opcodes that have one rule.
#[derive(Clone, Copy)]
pub struct Row {
    pub number: u16,
    ghost is_row: { number < row_count },
}

impl Row {
    fn rule(self) -> Rule
        ensures { result.number ≡ rule_of self.number }
    {
        Rule {
            number: classifier::rule_of(64 * self.number),
        }
    }

    fn begins(self) -> bool
        ensures { result ≡ begins self.number }
    {
        if self.number == 0 {
            return true;
        }
        let before = Row {
            number: self.number - 1,
        };
        before.rule().number != self.rule().number
    }

    fn ends(self) -> bool
        ensures { result ≡ ends self.number }
    {
        if self.number == LAST_ROW {
            return true;
        }
        let after = Row {
            number: self.number + 1,
        };
        after.rule().number != self.rule().number
    }
}

fn put_run_begins(out: &mut [u8], at: usize, row: Row) -> usize
    requires { at + length (run_begins row.number) ≤ length out.old }
    ensures { written result out.new ≡ written_of out.old at (run_begins row.number) }
{
    let a = text::put_hex::<4>(out, at, u32::from(64 * row.number));
    text::put_bytes(out, a, b"-")
}

fn put_run_ends(out: &mut [u8], at: usize, row: Row) -> usize
    requires { at + length (run_ends row.number) ≤ length out.old }
    ensures { written result out.new ≡ written_of out.old at (run_ends row.number) }
{
    let rule = row.rule();
    let a = text::put_hex::<4>(out, at, u32::from(64 * row.number + 63));
    let b = text::put_bytes(out, a, b" ");
    let c = text::put_decimal(out, b, u64::from(rule.number));
    let d = text::put_bytes(out, c, b" ");
    let e = text::put_bytes(out, d, rule.name());
    text::put_bytes(out, e, b"\n")
}

fn put_beginning(out: &mut [u8], at: usize, row: Row) -> usize
    requires { at + length (cond (begins row.number) (run_begins row.number) []) ≤ length out.old }
    ensures { written result out.new
        ≡ written_of out.old at (cond (begins row.number) (run_begins row.number) []) }
{
    if row.begins() {
        return put_run_begins(out, at, row);
    }
    at
}

fn put_ending(out: &mut [u8], at: usize, row: Row) -> usize
    requires { at + length (cond (ends row.number) (run_ends row.number) []) ≤ length out.old }
    ensures { written result out.new
        ≡ written_of out.old at (cond (ends row.number) (run_ends row.number) []) }
{
    if row.ends() {
        return put_run_ends(out, at, row);
    }
    at
}

// What a row adds to part one.
pub fn put_row(out: &mut [u8], at: usize, row: Row) -> usize
    // There is room: only `put_rows` calls this, where the room is known.
    requires { at + length (row_text row.number) ≤ length out.old }
    ensures { written result out.new ≡ written_of out.old at (row_text row.number) }
{
    let a = put_beginning(out, at, row);
    put_ending(out, a, row)
}

// `RULE NAME: sentence`, behind an empty line.
#[tactic(auto, using(crate::proofs::Each::each), unfolding(crate::specs::Lines::heading_line))]
pub fn put_heading(out: &mut [u8], at: usize, rule: Rule) -> usize
    // There is room: only `put_rule` calls this, where the room is known.
    requires { at + length (heading_line rule.number) ≤ length out.old }
    ensures { written result out.new ≡ written_of out.old at (heading_line rule.number) }
{
    let a = text::put_bytes(out, at, b"\n");
    let b = text::put_decimal(out, a, u64::from(rule.number));
    let c = text::put_bytes(out, b, b" ");
    let d = text::put_bytes(out, c, rule.name());
    let e = text::put_bytes(out, d, b": ");
    let f = text::put_bytes(out, e, rule.sentence());
    text::put_bytes(out, f, b"\n")
}

// What a rule gives for an operand mode.
pub fn put_mode_line(out: &mut [u8], at: usize, rule: Rule, mode: Mode) -> usize
    // There is room: only `put_modes` calls this, where the room is known.
    requires { at + length (mode_line rule.number mode.number) ≤ length out.old }
    ensures { written result out.new
        ≡ written_of out.old at (mode_line rule.number mode.number) }
{
    let word = classifier::finish(rule.number, mode.six());
    let a = text::put_bytes(out, at, b"  ");
    let b = text::put_bytes(out, a, mode.name());
    let c = words::put_word(out, b, word);
    text::put_bytes(out, c, b"\n")
}

// How many rows and rules there are, behind an empty line.
pub fn put_closing(out: &mut [u8], at: usize) -> usize
    // There is room: only `put_page` calls this, where the room is known.
    requires { at + length closing_line ≤ length out.old }
    ensures { written result out.new ≡ written_of out.old at closing_line }
{
    text::put_bytes(out, at, b"\n1024 rows, 29 rules\n")
}
