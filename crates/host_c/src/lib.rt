// The static library that hosts in C and Rust link: the functions of `host`, under their own names.
// Stays beside `host`, clause for clause: a crate is a library or a static library, not both, and C links this one.
#![tactic(auto)]

ghost use Rattle.std.specs.Prelude.{◌≡◌, List, ℕ};
ghost use Rattle.profile.specs.declared.Profile.{Profile};
ghost use Rattle.profile.specs.Profile.{profile_of, profile_at};
ghost use Rattle.state.specs.Timing.{fresh_of};
ghost use Rattle.state.specs.declared.Event.TheVariants.{Broken, ClearedAll, ClearedUser};
ghost use Rattle.in_place.specs.Lent.{lent, lent_of};
ghost use Rattle.in_place.specs.Retire.{paid_by, retire_at_of, event_at_of};
ghost use Rattle.refusals.specs.Runs.{runs};
ghost use Rattle.host.specs.HostRan.{host_outcome};
ghost use Rattle.host.specs.HostWords.{run_batch_at_of};
ghost use Rattle.host.specs.HostRuns.{run_trace_at_of};
ghost use Rattle.host.specs.HostWhy.{host_explained, explain_number_at_of, host_why, explain_trace_at_of};
ghost use Rattle.host.specs.HostImages.{host_image, image_write_at_of, host_state, image_read_at_of};
ghost use Rattle.state.specs.Flags.{retirement_of};
ghost use Rattle.host.specs.HostMasks.{host_masks_of};
ghost use Rattle.window.specs.Raw.{raw_count};

use host::{HostMasks, HostRan};
use in_place::WindowNumbers;

// A fresh state.
#[unsafe(no_mangle)]
pub extern "C" fn timing_060_fresh_at(
    tags: &mut [u32; 256],
    state: &mut [u8; 256],
    window: &mut WindowNumbers,
)
    ensures { lent tags.new state.new window.new ≡ lent_of fresh_of }
{
    host::timing_060_fresh_at(tags, state, window)
}

// One retirement in place, in the profile of this number: its clocks in the low 32 bits, and above them what the cache
// predicted, 0 to 3.
#[unsafe(no_mangle)]
pub extern "C" fn timing_060_retire_at(
    tags: &mut [u32; 256],
    state: &mut [u8; 256],
    window: &mut WindowNumbers,
    profile: u32,
    op: u16,
    flags: u16,
    ppc: u32,
    pc: u32,
    raw: i32,
) -> u64
    ensures { paid_by result (lent tags.new state.new window.new)
        ≡ retire_at_of (profile_at profile) (lent tags.old state.old window.old)
        (retirement_of op flags ppc pc (raw_count raw)) }
{
    host::timing_060_retire_at(tags, state, window, profile, op, flags, ppc, pc, raw)
}

// The step in place under its own name, which the archive has had beside the host's.
#[unsafe(no_mangle)]
pub extern "C" fn retire_at(
    tags: &mut [u32; 256],
    state: &mut [u8; 256],
    window: &mut WindowNumbers,
    profile: u32,
    op: u16,
    flags: u16,
    ppc: u32,
    pc: u32,
    raw: i32,
) -> u64
    ensures { paid_by result (lent tags.new state.new window.new)
        ≡ retire_at_of (profile_at profile) (lent tags.old state.old window.old)
        (retirement_of op flags ppc pc (raw_count raw)) }
{
    in_place::retire_at(tags, state, window, profile, op, flags, ppc, pc, raw)
}

// The same retirement in place, and why it costs what it costs: above the clocks 8 bits for what the cache predicted,
// and above them the reason, 0 to 13.
#[unsafe(no_mangle)]
pub extern "C" fn timing_060_explain_at(
    tags: &mut [u32; 256],
    state: &mut [u8; 256],
    window: &mut WindowNumbers,
    profile: u32,
    op: u16,
    flags: u16,
    ppc: u32,
    pc: u32,
    raw: i32,
) -> u64
    ensures { host_explained result (lent tags.new state.new window.new)
        ≡ explain_number_at_of (profile_at profile) (lent tags.old state.old window.old)
        (retirement_of op flags ppc pc (raw_count raw)) }
{
    host::timing_060_explain_at(tags, state, window, profile, op, flags, ppc, pc, raw)
}

// The break: tags and slots stay, and are not lent.
#[unsafe(no_mangle)]
pub extern "C" fn timing_060_break_at(window: &mut WindowNumbers)
    ensures { (p : Profile) (tags state : List ℕ) → lent tags state window.new
        ≡ event_at_of p (lent tags state window.old) Broken }
{
    host::timing_060_break_at(window)
}

// CACR.CABC: the tags stay, and are not lent.
#[unsafe(no_mangle)]
pub extern "C" fn timing_060_clear_all_at(state: &mut [u8; 256], window: &mut WindowNumbers)
    ensures { (p : Profile) (tags : List ℕ) → lent tags state.new window.new
        ≡ event_at_of p (lent tags state.old window.old) ClearedAll }
{
    host::timing_060_clear_all_at(state, window)
}

// CACR.CUBC: the tags stay, and are not lent; the cache's own rule looks at none.
#[unsafe(no_mangle)]
pub extern "C" fn timing_060_clear_user_at(state: &mut [u8; 256], window: &mut WindowNumbers)
    ensures { (p : Profile) (tags : List ℕ) → lent tags state.new window.new
        ≡ event_at_of p (lent tags state.old window.old) ClearedUser }
{
    host::timing_060_clear_user_at(state, window)
}

#[unsafe(no_mangle)]
pub extern "C" fn timing_060_class_word(op: u16, profile: u32) -> u16
    ensures { result ≡ (profile_of (profile_at profile) op).word.0 }
{
    host::timing_060_class_word(op, profile)
}

#[unsafe(no_mangle)]
pub extern "C" fn timing_060_masks_of(op: u16, profile: u32) -> HostMasks
    ensures { result ≡ host_masks_of (profile_at profile) op }
{
    host::timing_060_masks_of(op, profile)
}

// A run of a trace: the state is taken once, and the next one stored once; a refused run writes nothing. The answers
// come last, where both their numbers go over the stack: a caller may take a slice for a struct or for two numbers.
#[unsafe(no_mangle)]
pub extern "C" fn timing_060_run_trace_at(
    trace: &[u8],
    costs: &mut [u8],
    tags: &mut [u32; 256],
    state: &mut [u8; 256],
    window: &mut WindowNumbers,
    profile: u32,
    answers: &mut [u8],
) -> HostRan
    ensures { host_outcome result (runs costs.new answers.new) (lent tags.new
        state.new window.new)
        ≡ run_trace_at_of (profile_at profile) trace.now (runs costs.old answers.old)
        (lent tags.old state.old window.old) }
{
    host::timing_060_run_trace_at(trace, costs, tags, state, window, profile, answers)
}

// The same run, which writes each retirement's reason too. Answers and reasons come last, over the stack.
#[unsafe(no_mangle)]
pub extern "C" fn timing_060_explain_trace_at(
    trace: &[u8],
    costs: &mut [u8],
    tags: &mut [u32; 256],
    state: &mut [u8; 256],
    window: &mut WindowNumbers,
    profile: u32,
    answers: &mut [u8],
    reasons: &mut [u8],
) -> HostRan
    ensures { host_why (host_outcome result (runs costs.new answers.new) (lent tags.new
        state.new window.new)) reasons.new
        ≡ explain_trace_at_of (profile_at profile) trace.now (runs costs.old answers.old)
        reasons.old (lent tags.old state.old window.old) }
{
    host::timing_060_explain_trace_at(trace, costs, tags, state, window, profile, answers, reasons)
}

// A batch of records of four words each; words beyond the last whole record are not read. The answers come last, too.
#[unsafe(no_mangle)]
pub extern "C" fn timing_060_run_batch_at(
    records: &[u32],
    costs: &mut [u32],
    tags: &mut [u32; 256],
    state: &mut [u8; 256],
    window: &mut WindowNumbers,
    profile: u32,
    answers: &mut [u8],
) -> HostRan
    ensures { host_outcome result (runs costs.new answers.new) (lent tags.new
        state.new window.new)
        ≡ run_batch_at_of (profile_at profile) records.now (runs costs.old answers.old)
        (lent tags.old state.old window.old) }
{
    host::timing_060_run_batch_at(records, costs, tags, state, window, profile, answers)
}

// The image of a state; the count is the bytes written.
#[unsafe(no_mangle)]
pub extern "C" fn timing_060_image_write_at(
    tags: &[u32; 256],
    state: &[u8; 256],
    window: &WindowNumbers,
    image: &mut [u8],
) -> HostRan
    ensures { host_image result image.new
        ≡ image_write_at_of (lent tags.now state.now window.now) image.old }
{
    host::timing_060_image_write_at(tags, state, window, image)
}

// The state of an image; a refused image gives a fresh state.
#[unsafe(no_mangle)]
pub extern "C" fn timing_060_image_read_at(
    image: &[u8],
    tags: &mut [u32; 256],
    state: &mut [u8; 256],
    window: &mut WindowNumbers,
) -> HostRan
    ensures { host_state result (lent tags.new state.new window.new)
        ≡ image_read_at_of image.now }
{
    host::timing_060_image_read_at(image, tags, state, window)
}
