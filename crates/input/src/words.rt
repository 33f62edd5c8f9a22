// The words by which a program is told what to do: `crate` or `mended`, or none, which is the crate's profile; and of
// `why` also `full`, before or behind it.
ghost use Rattle.std.specs.Prelude.{◌≡◌, ◌≤◌, length, Some};
ghost use Rattle.input.specs.Words.{Names, chosen_of, Says, one_asks, both_ask, asks_of};

use profile::Profile;
use std::env::FillError;
use std::rt::Env;

// What a word says to `why`.
#[derive(Clone, Copy)]
pub enum Said {
    Full,
    Profile(Profile),
}

// What `why` is asked for: whether all columns are, and by which profile.
#[derive(Clone, Copy)]
pub struct Request {
    pub full: bool,
    pub profile: Profile,
}

// The profile that a word names.
pub fn profile_named(word: &[u8]) -> Option<Profile>
    ensures { Names word.now result }
{
    match word {
        b"crate" => Some(Profile::Crate),
        b"mended" => Some(Profile::Mended),
        _ => None,
    }
}

// What so many arguments name, the program's own name among them and the first word naming this: none the crate's
// profile, and two or more nothing.
fn chosen(given: usize, named: Option<Profile>) -> Option<Profile>
    ensures { result ≡ chosen_of given named }
{
    match given {
        0 | 1 => Some(Profile::Crate),
        2 => named,
        _ => None,
    }
}

// How many arguments there are, the program's own name among them.
// Stays a count by asking: std's list of the arguments is made on the heap, and memory is fixed.
fn argument_count(rt: &impl Env) -> usize {
    let mut word = [0u8; 16];
    for i in 0..usize::MAX {
        if let Err(FillError::NotPresent) = rt.arg(i, &mut word) {
            return i;
        }
    }
    usize::MAX
}

// An argument, in the buffer: nothing of it where it does not fit, or is not there.
// Stays a buffer that is lent: std's list of the arguments is made on the heap, and memory is fixed.
fn argument<'a>(rt: &impl Env, i: usize, buf: &'a mut [u8]) -> &'a [u8]
    ensures { length result.now ≤ length buf.old }
{
    let n = rt.arg(i, buf).unwrap_or(0);
    &buf[..n]
}

// The word behind the program's name. One that does not fit the buffer is no profile's.
pub fn read_word(rt: &impl Env) -> Option<Profile> {
    let mut word = [0u8; 16];
    let named = profile_named(argument(rt, 1, &mut word));
    chosen(argument_count(rt), named)
}

fn word_says(word: &[u8]) -> Option<Said>
    ensures { Says word.now result }
{
    match word {
        b"full" => Some(Said::Full),
        _ => profile_named(word).map(Said::Profile),
    }
}

fn one_asks(said: Said) -> Request
    ensures { Some result ≡ one_asks (Some said) }
{
    let (full, profile) = match said {
        Said::Full => (true, Profile::Crate),
        Said::Profile(profile) => (false, profile),
    };
    Request { full, profile }
}

// Two words ask for something only where one of them, and not both, is `full`.
fn both_ask(first: Said, second: Said) -> Option<Request>
    ensures { result ≡ both_ask (Some first) (Some second) }
{
    let full = true;
    match (first, second) {
        (Said::Full, Said::Profile(profile)) => Some(Request { full, profile }),
        (Said::Profile(profile), Said::Full) => Some(Request { full, profile }),
        _ => None,
    }
}

// So many arguments, the program's own name among them, and what the first two words say. No word is as `crate`.
fn asked(given: usize, first: Option<Said>, second: Option<Said>) -> Option<Request>
    ensures { result ≡ asks_of given first second }
{
    match given {
        0 | 1 => Some(one_asks(Said::Profile(Profile::Crate))),
        2 => first.map(one_asks),
        3 => both_ask(first?, second?),
        _ => None,
    }
}

// The words behind the name of `why`. One that does not fit its buffer is none of them.
pub fn read_words(rt: &impl Env) -> Option<Request> {
    let mut first = [0u8; 16];
    let first = word_says(argument(rt, 1, &mut first));
    let mut second = [0u8; 16];
    let second = word_says(argument(rt, 2, &mut second));
    asked(argument_count(rt), first, second)
}
