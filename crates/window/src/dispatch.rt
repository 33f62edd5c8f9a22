// Part 5 of document 01: the dispatch test.
ghost use Rattle.std.specs.Prelude.{◌≡◌, not, ◌&&◌};
ghost use Rattle.class_word.specs.Word.{has, VARIABLE, UNCLASSIFIED, EA_INDEXED, USES_CCR_LATE};
ghost use Rattle.window.specs.Dispatch.{memory, is_simple, failing, passes};

use crate::Window;
use crate::raw::RawCount;
use class_word::{
    F_EA_INDEXED, F_READS_MEM, F_UNCLASSIFIED, F_USES_CCR_LATE, F_VARIABLE, F_WRITES_MEM, Info060,
    OepClass,
};

// What an instruction is to the pairing window.
#[derive(Clone, Copy, PartialEq, Eq)]
pub struct Instruction {
    pub word: Info060,
    // use_mask
    pub uses: u16,
    // def_mask
    pub defs: u16,
}

// What the host passes with a retirement, besides the opcode.
#[derive(Clone, Copy)]
pub struct Controls {
    pub flowed: bool,
    pub cached: bool,
    pub ess: bool,
    pub ebc: bool,
    pub supervisor: bool,
    pub ppc: u32,
    pub pc: u32,
    pub raw: RawCount,
}

// The rules of the dispatch test, in order.
#[derive(Clone, Copy)]
pub enum Rule {
    EssOn,
    BothCached,
    Simple,
    RegistersFree,
    NoLateCcr,
    OneMemory,
}

// The instruction has a memory operand.
pub fn memory(word: Info060) -> bool
    ensures { result ≡ memory word.0 }
{
    word.has(F_READS_MEM) || word.has(F_WRITES_MEM)
}

// Nothing that keeps an instruction of class 0 out of the second pipeline.
fn unhindered(word: Info060) -> bool
    ensures { result
        ≡ (not (has word.0 EA_INDEXED) && not (has word.0 UNCLASSIFIED) && not (has word.0 VARIABLE)) }
{
    !word.has(F_EA_INDEXED) && !word.has(F_UNCLASSIFIED) && !word.has(F_VARIABLE)
}

// Class 0 and nothing that keeps it out of the second pipeline.
#[tactic(auto, unfolding(crate::specs::Dispatch::is_simple))]
fn simple(word: Info060) -> bool
    ensures { result ≡ is_simple word.0 }
{
    word.class() == OepClass::PoepSoep && unhindered(word)
}

// `ccr`: the head defines the CCR.
fn late_ccr(word: Info060, ccr: bool) -> bool
    ensures { result ≡ (has word.0 USES_CCR_LATE && ccr) }
{
    word.has(F_USES_CCR_LATE) && ccr
}

// `mem`: the head accessed memory.
fn second_memory(word: Info060, mem: bool) -> bool
    ensures { result ≡ (memory word.0 && mem) }
{
    memory(word) && mem
}

// The first rule that fails, if one does: the dispatch test goes by it, and so do document 02's reasons.
#[tactic(auto, unfolding(crate::specs::Dispatch::failing, crate::specs::Dispatch::first_failing, crate::specs::Dispatch::holds))]
pub fn failing(i: Instruction, k: Controls, w: Window) -> Option<Rule>
    ensures { result ≡ failing i k w }
{
    if !k.ess {
        return Some(Rule::EssOn);
    }
    if !w.warm || !k.cached {
        return Some(Rule::BothCached);
    }
    if !simple(i.word) {
        return Some(Rule::Simple);
    }
    if (i.uses | i.defs) & w.defs != 0 {
        return Some(Rule::RegistersFree);
    }
    if late_ccr(i.word, w.ccr) {
        return Some(Rule::NoLateCcr);
    }
    if second_memory(i.word, w.mem) {
        return Some(Rule::OneMemory);
    }
    None
}

// The first rule that fails refuses the pair.
pub fn soep_dispatch_test(i: Instruction, k: Controls, w: Window) -> bool
    ensures { result ≡ passes i k w }
{
    failing(i, k, w).is_none()
}
