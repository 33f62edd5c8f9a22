// Part 6 of document 01: the refusals, each with its number and its place, and the verdict.
//
// The table's two columns are here, and `outcome` has what a run of a trace or a batch gives, refused or not. When a
// refusal is given is said where it is tested: in `records`, `batch`, `image`, and in `listing` for its own limit.
#![tactic(auto)]

mod outcome;

ghost use Rattle.std.specs.Prelude.{◌≡◌};
ghost use Rattle.refusals.specs.Refusals.{number_of, place_of};

pub use outcome::{Ran, refused};

#[derive(Clone, Copy, PartialEq, Eq)]
pub enum Refusal {
    // The trace or the batch is over its limit.
    Oversized,
    // 1 to 3 bytes remain at the record's start.
    Remainder(usize),
    // The record's kind is not one of the paper's.
    WrongKind(usize),
    // The record's length is not its kind's.
    WrongLength(usize),
    // The record's payload is cut.
    Cut(usize),
    // A flag above bit 4 is set.
    Flag(usize),
    // Too little room was lent.
    Room(usize),
    // The image has another length than an image.
    ImageLength,
    // The image's header is wrong.
    ImageHeader,
    // The image's window is none.
    ImageWindow,
}

// What was handed in is taken, or it is refused.
pub type Verdict = Result<(), Refusal>;

// Stays a function, with `place` beside it: they are document 01's two columns, and a place is no conversion.
pub fn number(refusal: Refusal) -> u8
    ensures { result ≡ number_of refusal }
{
    match refusal {
        Refusal::Oversized => 1,
        Refusal::Remainder(_) => 2,
        Refusal::WrongKind(_) => 3,
        Refusal::WrongLength(_) => 4,
        Refusal::Cut(_) => 5,
        Refusal::Flag(_) => 6,
        Refusal::Room(_) => 7,
        Refusal::ImageLength => 8,
        Refusal::ImageHeader => 9,
        Refusal::ImageWindow => 10,
    }
}

pub fn place(refusal: Refusal) -> usize
    ensures { result ≡ place_of refusal }
{
    match refusal {
        Refusal::Remainder(at)
        | Refusal::WrongKind(at)
        | Refusal::WrongLength(at)
        | Refusal::Cut(at)
        | Refusal::Flag(at)
        | Refusal::Room(at) => at,
        Refusal::Oversized | Refusal::ImageLength | Refusal::ImageHeader => 0,
        Refusal::ImageWindow => 1284,
    }
}
