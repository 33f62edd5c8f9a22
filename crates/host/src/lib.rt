// What a host calls: it lends its state as numbers, and need test nothing first. `host_c` has the same for C and Rust.
//
// `results` has what a run or an explained step gives, as numbers, and the next state stored; `words` a batch as 32-bit
// words. Each function here is a thin one over the crates below: raw counts and clocks are taken apart here and nowhere
// above.
// Stays a number: a profile comes, and what a step told goes, as the C interface passes them.
#![tactic(auto)]

mod results;
mod words;

ghost use Rattle.std.specs.Prelude.{◌≡◌, List, ℕ};
ghost use Rattle.profile.specs.declared.Profile.{Profile};
ghost use Rattle.profile.specs.Profile.{profile_of, profile_at};
ghost use Rattle.state.specs.Timing.{fresh_of};
ghost use Rattle.state.specs.declared.Event.TheVariants.{Broken, ClearedAll, ClearedUser};
ghost use Rattle.in_place.specs.Lent.{lent, lent_of};
ghost use Rattle.in_place.specs.Retire.{paid_by, retire_at_of, event_at_of};
ghost use Rattle.refusals.specs.Runs.{runs};
ghost use Rattle.host.specs.HostRan.{host_outcome};
ghost use Rattle.host.specs.HostWords.{run_batch_at_of};
ghost use Rattle.host.specs.HostRuns.{run_trace_at_of};
ghost use Rattle.host.specs.HostWhy.{host_explained, explain_number_at_of, host_why, explain_trace_at_of};
ghost use Rattle.host.specs.HostImages.{host_image, image_write_at_of, host_state, image_read_at_of};
ghost use Rattle.state.specs.Flags.{retirement_of};
ghost use Rattle.host.specs.HostMasks.{host_masks_of};
ghost use Rattle.window.specs.Raw.{raw_count};

use class_word::Info060;
use in_place::WindowNumbers;
use profile::Profile;
pub use results::{HostRan, host_ran};
use results::{fresh_at, put_accepted, put_timing, why_number};
use window::{Instruction, RawCount};

// Stays beside `RegMasks060`: the C interface, a struct of two numbers by value.
#[repr(C)]
#[derive(Clone, Copy)]
pub struct HostMasks {
    pub uses: u16,
    pub defs: u16,
}

// A fresh state.
pub fn timing_060_fresh_at(tags: &mut [u32; 256], state: &mut [u8; 256], window: &mut WindowNumbers)
    ensures { lent tags.new state.new window.new ≡ lent_of fresh_of }
{
    fresh_at(tags, state, window)
}

// One retirement in place, in the profile of this number: its clocks in the low 32 bits, and above them what the cache
// predicted, 0 to 3.
pub fn timing_060_retire_at(
    tags: &mut [u32; 256],
    state: &mut [u8; 256],
    window: &mut WindowNumbers,
    profile: u32,
    op: u16,
    flags: u16,
    ppc: u32,
    pc: u32,
    raw: i32,
) -> u64
    ensures { paid_by result (lent tags.new state.new window.new)
        ≡ retire_at_of (profile_at profile) (lent tags.old state.old window.old)
        (retirement_of op flags ppc pc (raw_count raw)) }
{
    in_place::retire_at(tags, state, window, profile, op, flags, ppc, pc, raw)
}

// The same retirement in place, and why it costs what it costs: above the clocks 8 bits for what the cache predicted,
// and above them the reason, 0 to 13.
pub fn timing_060_explain_at(
    tags: &mut [u32; 256],
    state: &mut [u8; 256],
    window: &mut WindowNumbers,
    profile: u32,
    op: u16,
    flags: u16,
    ppc: u32,
    pc: u32,
    raw: i32,
) -> u64
    ensures { host_explained result (lent tags.new state.new window.new)
        ≡ explain_number_at_of (profile_at profile) (lent tags.old state.old window.old)
        (retirement_of op flags ppc pc (raw_count raw)) }
{
    let p = Profile::from(profile);
    let r = state::retirement_of(op, flags, ppc, pc, RawCount(raw));
    let explained = reasons::explain_in_place(tags, state, window, p, r);
    why_number(explained)
}

// The break: tags and slots stay, and are not lent.
pub fn timing_060_break_at(window: &mut WindowNumbers)
    ensures { (p : Profile) (tags state : List ℕ) → lent tags state window.new
        ≡ event_at_of p (lent tags state window.old) Broken }
{
    in_place::shut_window(window);
}

// CACR.CABC: the tags stay, and are not lent.
pub fn timing_060_clear_all_at(state: &mut [u8; 256], window: &mut WindowNumbers)
    ensures { (p : Profile) (tags : List ℕ) → lent tags state.new window.new
        ≡ event_at_of p (lent tags state.old window.old) ClearedAll }
{
    in_place::clear_all_at(state, window);
}

// CACR.CUBC: the tags stay, and are not lent; the cache's own rule looks at none.
pub fn timing_060_clear_user_at(state: &mut [u8; 256], window: &mut WindowNumbers)
    ensures { (p : Profile) (tags : List ℕ) → lent tags state.new window.new
        ≡ event_at_of p (lent tags state.old window.old) ClearedUser }
{
    in_place::clear_user_at(state, window);
}

pub fn timing_060_class_word(op: u16, profile: u32) -> u16
    ensures { result ≡ (profile_of (profile_at profile) op).word.0 }
{
    // No profile's word depends on the masks, and so none are looked up.
    let word = classifier::info_060(op);
    let i = Instruction {
        word,
        uses: 0,
        defs: 0,
    };
    let p = Profile::from(profile);
    profile::read_in(p, op, i).word.0
}

pub fn timing_060_masks_of(op: u16, profile: u32) -> HostMasks
    ensures { result ≡ host_masks_of (profile_at profile) op }
{
    // Nor do a profile's masks depend on the word.
    let masks = masks::reg_masks_060(op);
    let i = Instruction {
        word: Info060(0),
        uses: masks.uses,
        defs: masks.defs,
    };
    let p = Profile::from(profile);
    let read = profile::read_in(p, op, i);
    HostMasks {
        uses: read.uses,
        defs: read.defs,
    }
}

// A run of a trace: the state is taken once, and the next one stored once; a refused run writes nothing. The answers
// come last, where both their numbers go over the stack: a caller may take a slice for a struct or for two numbers.
pub fn timing_060_run_trace_at(
    trace: &[u8],
    costs: &mut [u8],
    tags: &mut [u32; 256],
    state: &mut [u8; 256],
    window: &mut WindowNumbers,
    profile: u32,
    answers: &mut [u8],
) -> HostRan
    ensures { host_outcome result (runs costs.new answers.new) (lent tags.new
        state.new window.new)
        ≡ run_trace_at_of (profile_at profile) trace.now (runs costs.old answers.old)
        (lent tags.old state.old window.old) }
{
    let given = in_place::timing_at(*tags, *state, *window);
    let p = Profile::from(profile);
    let ran = trace::run_trace(trace, costs, answers, given, p);
    let verdict = ran.verdict;
    let next = ran.timing;
    put_accepted(tags, state, window, verdict, next);
    host_ran(verdict, ran.count, ran.total)
}

// The same run, which writes each retirement's reason too. Answers and reasons come last, over the stack.
pub fn timing_060_explain_trace_at(
    trace: &[u8],
    costs: &mut [u8],
    tags: &mut [u32; 256],
    state: &mut [u8; 256],
    window: &mut WindowNumbers,
    profile: u32,
    answers: &mut [u8],
    reasons: &mut [u8],
) -> HostRan
    ensures { host_why (host_outcome result (runs costs.new answers.new) (lent tags.new
        state.new window.new)) reasons.new
        ≡ explain_trace_at_of (profile_at profile) trace.now (runs costs.old answers.old)
        reasons.old (lent tags.old state.old window.old) }
{
    let given = in_place::timing_at(*tags, *state, *window);
    let p = Profile::from(profile);
    let explained = reasons::explain_trace(trace, costs, answers, reasons, given, p);
    let verdict = explained.verdict;
    let last = explained.timing;
    put_accepted(tags, state, window, verdict, last);
    host_ran(verdict, explained.count, explained.total)
}

// A batch of records of four words each; words beyond the last whole record are not read. The answers come last, too.
pub fn timing_060_run_batch_at(
    records: &[u32],
    costs: &mut [u32],
    tags: &mut [u32; 256],
    state: &mut [u8; 256],
    window: &mut WindowNumbers,
    profile: u32,
    answers: &mut [u8],
) -> HostRan
    ensures { host_outcome result (runs costs.new answers.new) (lent tags.new
        state.new window.new)
        ≡ run_batch_at_of (profile_at profile) records.now (runs costs.old answers.old)
        (lent tags.old state.old window.old) }
{
    words::run_batch_at(records, costs, answers, tags, state, window, profile)
}

// The image of a state; the count is the bytes written.
pub fn timing_060_image_write_at(
    tags: &[u32; 256],
    state: &[u8; 256],
    window: &WindowNumbers,
    image: &mut [u8],
) -> HostRan
    ensures { host_image result image.new
        ≡ image_write_at_of (lent tags.now state.now window.now) image.old }
{
    let timing = in_place::timing_at(*tags, *state, *window);
    match image::image_write(timing, image) {
        Ok(written) => host_ran(Ok(()), written, 0),
        Err(refusal) => host_ran(Err(refusal), 0, 0),
    }
}

// The state of an image; a refused image gives a fresh state.
pub fn timing_060_image_read_at(
    image: &[u8],
    tags: &mut [u32; 256],
    state: &mut [u8; 256],
    window: &mut WindowNumbers,
) -> HostRan
    ensures { host_state result (lent tags.new state.new window.new)
        ≡ image_read_at_of image.now }
{
    let read = image::image_read(image);
    put_timing(tags, state, window, read.timing);
    let verdict = read.verdict;
    host_ran(verdict, 0, 0)
}
