// The head of a window in a line.
#![tactic(auto, using(text::proofs::Behind::behind))]

ghost use Rattle.std.specs.Prelude.{◌≡◌, ◌++◌, ◌+◌, ◌≤◌, length};
ghost use Rattle.text.specs.Hex.{hex_of, hex_long_of};
ghost use Rattle.text.specs.Written.{text_of, newline, written, written_of};
ghost use Rattle.replaying.specs.HeadLine.{head_line};

use window::Window;

// `head OPCODE at ADDRESS`
fn put_named(out: &mut [u8], at: usize, op: u16, address: u32) -> usize
    requires { at + 22 ≤ length out.old }
    ensures { written result out.new
        ≡ written_of out.old at
        (text_of "head " ++ hex_of op ++ text_of " at " ++ hex_long_of address ++ newline) }
{
    let a = text::put_bytes(out, at, b"head ");
    let b = text::put_hex::<4>(out, a, op as u32);
    let c = text::put_bytes(out, b, b" at ");
    let d = text::put_hex::<8>(out, c, address);
    text::put_bytes(out, d, b"\n")
}

// A shut window has no head.
pub fn put_head_line(out: &mut [u8], at: usize, w: Window) -> usize
    // There is room: only `put_state` calls this, where the room is known.
    requires { at + 22 ≤ length out.old }
    ensures { written result out.new ≡ written_of out.old at (head_line w) }
{
    if w.opened {
        return put_named(out, at, w.op, w.address);
    }
    text::put_bytes(out, at, b"head none\n")
}
