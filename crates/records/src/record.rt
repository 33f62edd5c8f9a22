// Part 6 of document 01: the records of a trace.
ghost use Rattle.std.specs.Prelude.{◌≡◌, ◌+◌, ◌≤◌, length};
ghost use Rattle.records.specs.Faults.{next_place};
ghost use Rattle.records.specs.Record.{event_at, record_at, whole_at, sound_at, read_at};

use crate::faults::ALL_FLAGS;
use crate::kinds::Kind;
use refusals::Refusal;
use state::Event;

// The first four bytes of a retirement's record as one number: length 16, and kind 1 above it.
const WHOLE_HEAD: u32 = 65552;

// The record of this kind at `at`, which is taken: its event, and the place after it.
fn taken_at(trace: &[u8], at: usize, kind: Kind) -> (Event, usize)
    requires { next_place at kind ≤ length trace.now }
    ensures event { result.0 ≡ event_at trace.now at kind }
    ensures next { result.1 ≡ next_place at kind }
{
    match kind {
        Kind::Retirement => {
            let retirement = crate::layout::retirement_at(trace, at);
            (Event::Retired(retirement), at + 20)
        }
        Kind::Break => (Event::Broken, at + 4),
        Kind::ClearAll => (Event::ClearedAll, at + 4),
        Kind::ClearUser => (Event::ClearedUser, at + 4),
    }
}

// The record of this kind at `at`, whose head is there.
#[tactic(auto, using(crate::proofs::Reading::held), unfolding(crate::specs::Record::record_at))]
fn record_at(trace: &[u8], at: usize, kind: Kind) -> Result<Option<(Event, usize)>, Refusal>
    requires { at + 4 ≤ length trace.now }
    ensures { result ≡ record_at trace.now at kind }
{
    crate::faults::fault_at(trace, at, kind)?;
    Ok(Some(taken_at(trace, at, kind)))
}

// Whether a whole retirement stands at `at`: its length and its kind by one comparison.
pub fn whole_at(trace: &[u8], at: usize) -> bool
    ensures { result ≡ whole_at trace.now at }
{
    // The length less 20 is made once in a loop over places.
    if trace.len() < 20 || trace.len() - 20 < at {
        return false;
    }
    little_endian::u32_at(trace, at) == WHOLE_HEAD
}

// Whether it has no flag above bit 4 either, and so is not refused.
pub fn sound_at(trace: &[u8], at: usize) -> bool
    ensures { result ≡ sound_at trace.now at }
{
    whole_at(trace, at) && little_endian::u16_at(trace, at + 6) <= ALL_FLAGS
}

// What stands at `at`: an event and the place after its record, a refusal, or nothing, at the end.
#[tactic(auto, unfolding(crate::specs::Record::read_at))]
pub fn read_record(trace: &[u8], at: usize) -> Result<Option<(Event, usize)>, Refusal>
    ensures { result ≡ read_at trace.now at }
{
    if trace.len() <= at {
        return Ok(None);
    }
    if trace.len() - at < 4 {
        return Err(Refusal::Remainder(at));
    }
    let Ok(kind) = Kind::try_from(little_endian::u16_at(trace, at + 2)) else {
        return Err(Refusal::WrongKind(at));
    };
    record_at(trace, at, kind)
}
