// Part 6 of document 01: a walk of a trace's records, in order.
ghost use Rattle.std.specs.Prelude.{◌≡◌};

use state::Event;

// The places and events of a trace's records, from a place on, up to the end or a refusal.
#[derive(Drop)]
pub struct Events<'a> {
    pub trace: &'a [u8],
    pub at: usize,
}

impl<'a> Iterator for Events<'a> {
    ghost use Rattle.std.specs.Iterator.{at_most};
    ghost use Rattle.records.specs.Record.{remaining};
    ghost use Rattle.records.specs.Walk.{Gives};

    type Item = (usize, Event);

    ghost next_gives = { Gives };

    ghost remaining = { λ it. at_most (remaining it.trace.now it.at) };

    fn next(&mut self) -> Option<(usize, Event)> {
        let at = self.at;
        let Ok(Some((event, next))) = crate::record::read_record(self.trace, at) else {
            return None;
        };
        self.at = next;
        Some((at, event))
    }
}

// A walk from a trace's first record on.
pub fn events_of(trace: &[u8]) -> Events
    ensures trace { result.trace.now ≡ trace.now }
    ensures at { result.at ≡ 0 }
{
    Events { trace, at: 0 }
}
