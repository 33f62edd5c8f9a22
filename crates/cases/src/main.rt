// Reads a stream of cases, and prints a line each: WHAT VERDICT NUMBER PLACE COUNT TOTAL LENT ANSWERS REASONS STATE.
// docs/TESTS.md has the format.
//
// `one_case` reads a case and `answer` lends what it asks for; `run` chooses what is called: `trace`, `image`, `batch`,
// the batch of words and the explained trace of `host`, or the break of `window`. `print_line` prints what came of it.
#![tactic(auto)]

ghost use Rattle.std.specs.Prelude.{◌≡◌, ◌+◌, ◌*◌, ◌/◌, ◌%◌, ◌≤◌, length};

use host::HostRan;
use image::IMAGE_LENGTH;
use in_place::WindowNumbers;
use profile::Profile;
use refusals::Ran;
use state::{Oep060Timing, Retirement};
use std::io::Read;
use std::{array, io};
use step::Chosen;
use window::{RawCount, Window};

// A stream of more cases than this is not read to its end.
const MOST_CASES: usize = 1000000;

// What a case calls.
#[derive(Clone, Copy, PartialEq, Eq)]
enum What {
    Trace,
    ImageRead,
    ImageWrite,
    BatchOfWords,
    BatchOfStructs,
    Break,
    Why,
}

impl From<u8> for What {
    fn from(number: u8) -> What {
        match number {
            1 => What::Trace,
            2 => What::ImageRead,
            3 => What::ImageWrite,
            5 => What::BatchOfStructs,
            6 => What::Break,
            7 => What::Why,
            _ => What::BatchOfWords,
        }
    }
}

impl What {
    // The first word of a line.
    fn name(self) -> &'static str {
        match self {
            What::Trace => "trace",
            What::ImageRead => "read",
            What::ImageWrite => "write",
            What::BatchOfWords => "batch",
            What::BatchOfStructs => "slice",
            What::Break => "break",
            What::Why => "why",
        }
    }

    // How many bytes a case lends for costs or an image, where it asks for so many: a batch's places are of four, and
    // an image read or a break lends none.
    fn costs_room(self, asked: u16) -> u16 {
        match self {
            What::Trace | What::ImageWrite | What::Why => asked,
            What::ImageRead | What::Break => 0,
            What::BatchOfWords | What::BatchOfStructs => asked % 16384 * 4,
        }
    }

    // How many bytes a case lends for answers: only a run and a batch have any.
    fn answers_room(self, asked: u16) -> u16 {
        match self {
            What::ImageRead | What::ImageWrite | What::Break => 0,
            _ => asked,
        }
    }

    // How many bytes a case lends for reasons: only a trace run that says why has any.
    fn reasons_room(self, asked: u16) -> u16 {
        match self {
            What::Why => asked,
            _ => 0,
        }
    }
}

// A case: what is called, the state that it starts from, the number of the profile, and the bytes that it gives.
// Stays a number of a profile: hosts pass one, and a case tries numbers that are neither's.
#[derive(Clone, Copy)]
struct Case<'a> {
    what: What,
    timing: Oep060Timing,
    number: u32,
    bytes: &'a [u8],
}

// What a case lends: bytes for costs or an image, for answers and for reasons.
#[derive(Drop)]
struct Lent<'a> {
    costs: &'a mut [u8],
    answers: &'a mut [u8],
    reasons: &'a mut [u8],
}

// What a case gives: the numbers of its line, and the image of the next state.
#[derive(Clone, Copy)]
struct Done {
    ran: HostRan,
    image: [u8; IMAGE_LENGTH],
}

// Room for an image and bytes, or for the digits of what is lent; a call, so that no proof counts its bytes.
fn space() -> [u8; 131070] {
    [0u8; 131070]
}

// Room for what a case lends, and 16 bytes or more beyond; a call, as `space` is.
fn large_buffer() -> [u8; 65536] {
    [0u8; 65536]
}

// Two digits a byte, or - for no byte, behind a blank. No case has more bytes than there is space for.
fn print_hex(rt: &impl Print, bytes: &[u8]) -> io::Result<()> {
    rt.write_all(b" ")?;
    let n = bytes.len();
    if n == 0 {
        return rt.write_all(b"-");
    }
    if 65535 < n {
        return Ok(());
    }
    let mut text = space();
    for (place, byte) in text.chunks_exact_mut(2).zip(bytes) {
        place.copy_from_slice(&text::hex_digits::<2>(*byte as u32));
    }
    rt.write_all(&text[..2 * n])
}

// An image, or the word for that of a fresh state: behind its header it holds zeros.
fn print_image(rt: &impl Print, image: &[u8; IMAGE_LENGTH]) -> io::Result<()> {
    if image[4..].iter().all(|byte| *byte == 0) {
        rt.write_all(b" fresh")
    } else {
        print_hex(rt, image)
    }
}

// The line of a case: a refusal's number, 0 where nothing is refused, and its place; the count and the total; what was
// lent; and the next state, which an image written has not.
fn print_line(rt: &impl Print, what: What, done: Done, lent: &Lent) -> io::Result<()> {
    let ran = done.ran;
    let name = what.name();
    let verdict = if ran.refusal == 0 {
        "accepted"
    } else {
        "refused"
    };
    print!(rt;
        "{name} {verdict} {} {} {} {}",
        ran.refusal, ran.place, ran.count, ran.total
    )?;
    print_hex(rt, lent.costs)?;
    print_hex(rt, lent.answers)?;
    print_hex(rt, lent.reasons)?;
    if what == What::ImageWrite {
        rt.write_all(b" -")?;
    } else {
        print_image(rt, &done.image)?;
    }
    rt.write_all(b"\n")
}

// A word of its own if one of the 16 bytes beyond the room, which hold zeros, was written.
fn print_spilled(rt: &impl Print, buffer: &[u8; 65536], room: u16) -> io::Result<()> {
    let beyond = &buffer[room as usize..];
    if beyond.iter().take(16).any(|byte| *byte != 0) {
        rt.write_all(b"spilled\n")?;
    }
    Ok(())
}

// The lent bytes before a case, so that a byte written, or not, shows.
fn fill(lent: &mut [u8]) {
    for (i, byte) in lent.iter_mut().enumerate() {
        *byte = ((i % 256 * 7 + 3) % 256) as u8;
    }
}

// The 32-bit words of bytes, the lowest byte first, in the first of a buffer. One to three bytes that are left over are
// not read; no case has more than 16,383 words.
fn words_of<'a>(bytes: &[u8], buffer: &'a mut [u32; 16384]) -> &'a mut [u32]
    ensures { length result.now ≡ length bytes.now / 4 % 16384 }
{
    let count = bytes.len() / 4 % 16384;
    let words = &mut buffer[..count];
    for (i, word) in words.iter_mut().enumerate() {
        *word = little_endian::u32_at(bytes, 4 * i);
    }
    words
}

// The same words back into bytes.
fn put_words(words: &[u32], bytes: &mut [u8]) {
    for (place, word) in bytes.chunks_exact_mut(4).zip(words) {
        place.copy_from_slice(&word.to_le_bytes());
    }
}

// The state that a case starts from. A dirty one has a shut window with its other fields set.
fn start(image: &[u8], dirty: bool) -> Oep060Timing {
    let timing = image::image_read(image).timing;
    if !dirty {
        return timing;
    }
    let cache = timing.cache;
    let window = Window {
        opened: false,
        defs: 65535,
        ccr: true,
        mem: true,
        warm: true,
        op: 65535,
        address: 4294967295,
    };
    Oep060Timing { cache, window }
}

fn read_image(case: &Case) -> Ran {
    let read = image::image_read(case.bytes);
    Ran {
        verdict: read.verdict,
        count: 0,
        total: 0,
        timing: read.timing,
    }
}

fn write_image(case: &Case, lent: &mut [u8]) -> Ran {
    let timing = case.timing;
    let written = image::image_write(timing, lent);
    Ran {
        verdict: written.map(|_| ()),
        count: written.unwrap_or(0),
        total: 0,
        timing,
    }
}

fn run_break(case: &Case) -> Ran {
    let cache = case.timing.cache;
    let window = window::break_in_place(case.timing.window);
    Ran {
        verdict: Ok(()),
        count: 0,
        total: 0,
        timing: Oep060Timing { cache, window },
    }
}

fn settle(ran: Ran) -> Done {
    let mut image = [0u8; IMAGE_LENGTH];
    let _ = image::image_write(ran.timing, &mut image);
    let ran = host::host_ran(ran.verdict, ran.count, ran.total);
    Done { ran, image }
}

// Lends the state in numbers, as a host does.
fn in_numbers<F>(timing: Oep060Timing, call: F) -> Done
where
    F: FnOnce(&mut [u32; 256], &mut [u8; 256], &mut WindowNumbers) -> HostRan,
    requires { F.IsAlwaysCallable call }
{
    let mut tags = timing.cache.tags;
    let mut state = timing.cache.state;
    let mut window = [0; in_place::WINDOW_NUMBERS];
    in_place::put_window(&mut window, timing.window);
    let ran = call(&mut tags, &mut state, &mut window);
    let mut image = [0u8; IMAGE_LENGTH];
    host::timing_060_image_write_at(&tags, &state, &window, &mut image);
    Done { ran, image }
}

// The record of 16 bytes from a place on.
fn record_at(bytes: &[u8], at: usize) -> Retirement
    requires { at + 16 ≤ length bytes.now }
{
    let op = little_endian::u16_at(bytes, at);
    let flags = little_endian::u16_at(bytes, at + 2);
    let ppc = little_endian::u32_at(bytes, at + 4);
    let pc = little_endian::u32_at(bytes, at + 8);
    let raw = RawCount(little_endian::i32_of(little_endian::u32_at(bytes, at + 12)));
    state::retirement_of(op, flags, ppc, pc, raw)
}

// The record of this number; what has no bytes is a record of zeros.
fn record_or_none(bytes: &[u8], i: usize) -> Retirement {
    if i < bytes.len() / 16 {
        return record_at(bytes, 16 * i);
    }
    state::retirement_of(0, 0, 0, 0, RawCount(0))
}

// At most 64 records as a lent run of structs.
fn run_structs(case: &Case, costs: &mut [u32], answers: &mut [u8]) -> Ran {
    let records = array::from_fn(|i| record_or_none(case.bytes, i));
    let chosen = Chosen {
        timing: case.timing,
        profile: Profile::from(case.number),
    };
    batch::run_batch_of_64(records, case.bytes.len() / 16, costs, answers, chosen)
}

// A batch of words, as a host lends it.
fn run_words(case: &Case, costs: &mut [u32], answers: &mut [u8]) -> Done {
    let mut buffer = [0u32; 16384];
    let words = words_of(case.bytes, &mut buffer);
    in_numbers(case.timing, |tags, state, window| {
        host::timing_060_run_batch_at(words, costs, tags, state, window, case.number, answers)
    })
}

// A batch: what is lent for the costs, as words.
fn run_batch(case: &Case, lent: &mut Lent) -> Done {
    let mut buffer = [0u32; 16384];
    let costs = words_of(lent.costs, &mut buffer);
    let done = if case.what == What::BatchOfStructs {
        settle(run_structs(case, costs, lent.answers))
    } else {
        run_words(case, costs, lent.answers)
    };
    put_words(costs, lent.costs);
    done
}

// A trace run in the profile of a number.
fn run_trace(case: &Case, lent: &mut Lent) -> Ran {
    let profile = Profile::from(case.number);
    trace::run_trace(case.bytes, lent.costs, lent.answers, case.timing, profile)
}

// A trace run that says why, as a host lends it.
fn run_why(case: &Case, lent: &mut Lent) -> Done {
    in_numbers(case.timing, |tags, state, window| {
        host::timing_060_explain_trace_at(
            case.bytes,
            lent.costs,
            tags,
            state,
            window,
            case.number,
            lent.answers,
            lent.reasons,
        )
    })
}

fn run(case: &Case, lent: &mut Lent) -> Done {
    match case.what {
        What::Trace => settle(run_trace(case, lent)),
        What::ImageRead => settle(read_image(case)),
        What::ImageWrite => settle(write_image(case, lent.costs)),
        What::BatchOfWords | What::BatchOfStructs => run_batch(case, lent),
        What::Break => settle(run_break(case)),
        What::Why => run_why(case, lent),
    }
}

// One case, with a buffer for each run of bytes that it lends; the header has how many it asks for.
fn answer(rt: &impl Print, header: &[u8; 12], case: &Case) -> io::Result<()> {
    let what = case.what;
    let costs_room = what.costs_room(little_endian::u16_at(header, 2));
    let answers_room = what.answers_room(little_endian::u16_at(header, 8));
    let reasons_room = what.reasons_room(little_endian::u16_at(header, 10));
    let mut costs = large_buffer();
    let mut answers = large_buffer();
    let mut reasons = large_buffer();
    let mut lent = Lent {
        costs: &mut costs[..costs_room as usize],
        answers: &mut answers[..answers_room as usize],
        reasons: &mut reasons[..reasons_room as usize],
    };
    fill(lent.costs);
    fill(lent.answers);
    fill(lent.reasons);
    let done = run(case, &mut lent);
    print_line(rt, what, done, &lent)?;
    print_spilled(rt, &costs, costs_room)?;
    print_spilled(rt, &answers, answers_room)?;
    print_spilled(rt, &reasons, reasons_room)
}

// Reads one case and answers it: a header of 12 bytes, the image that it starts from, and its bytes. Answers whether
// all came.
fn one_case(rt: &(impl io::Input + Print)) -> io::Result<bool> {
    let mut header = [0u8; 12];
    if rt.reader().read_exact(&mut header).is_err() {
        return Ok(false);
    }
    let given = little_endian::u16_at(&header, 4) as usize;
    let all = given + little_endian::u16_at(&header, 6) as usize;
    let mut rest = space();
    if rt.reader().read_exact(&mut rest[..all]).is_err() {
        return Ok(false);
    }
    // Bit 0 says that the state is dirty; the rest is the number of the profile.
    let case = Case {
        what: What::from(header[0]),
        timing: start(&rest[..given], header[1] % 2 == 1),
        number: (header[1] / 2) as u32,
        bytes: &rest[given..all],
    };
    answer(rt, &header, &case)?;
    Ok(true)
}

fn main(rt: HostRuntime) -> io::Result<()> {
    for _ in 0..MOST_CASES {
        if !one_case(&rt)? {
            return Ok(());
        }
    }
    Ok(())
}
