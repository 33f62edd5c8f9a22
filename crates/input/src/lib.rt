// What the tools read before they work: standard input, whole, and the words behind a program's name.
//
// `read_input` reads standard input; `words` has the words. A program lends one byte more than it takes, so that longer
// input is seen to be longer. `on_input` hands back what came, for the four programs that read a trace.
#![tactic(auto)]

mod words;

ghost use Rattle.std.specs.Prelude.{length, ◌≤◌, IfOk, IfSome};
ghost use Rattle.input.specs.Input.{Within};

use std::io;
use std::io::Read;
pub use words::{Request, Said, profile_named, read_word, read_words};

// Reads until the lent bytes are full or the input ends. A read that fails is told apart from the end.
// Stays a loop over reads: std's read_exact says not how much of a short input came, and read_to_end wants the heap.
pub fn read_input(rt: &impl io::Input, buf: &mut [u8]) -> io::Result<usize>
    ensures { Within (length buf.new) result }
{
    let mut stdin = rt.reader();
    let mut done: usize = 0;
    while done < buf.len() {
        match stdin.read(&mut buf[done..])? {
            0 => break,
            more => done += more,
        }
    }
    Ok(done)
}

// The bytes of standard input, in the lent room. Where it cannot be read there are none, and that is said on standard
// error, behind the program's name.
pub fn on_input<'a>(
    rt: &(impl io::Input + Eprint),
    program: &str,
    room: &'a mut [u8],
) -> io::Result<Option<&'a [u8]>>
    ensures { IfOk result (λ came. IfSome came (λ bytes. length bytes.now ≤ length room.old)) }
{
    let Ok(taken) = read_input(rt, room) else {
        eprintln!(rt; "{program}: standard input cannot be read")?;
        return Ok(None);
    };
    Ok(Some(&room[..taken]))
}
