// What stands in the columns, put into lent bytes.
ghost use Rattle.std.specs.Prelude.{◌≡◌, ◌+◌, ◌≤◌, length};
ghost use Rattle.text.specs.Written.{text_of, written, written_of};
ghost use Rattle.reasons.specs.Reasons.{reason_word};
ghost use Rattle.explaining.specs.Words.{predicted_word};
ghost use Rattle.explaining.specs.WhyLines.{words_text, head_text};

use cost::Answer;
use reasons::Reason;
use window::Window;

pub fn reason_word(reason: Reason) -> &'static [u8]
    ensures { result.now ≡ text_of (reason_word reason) }
{
    match reason {
        Reason::Paired => b"paired",
        Reason::WindowShut => b"window-shut",
        Reason::EssOff => b"ess-off",
        Reason::NotCached => b"not-cached",
        Reason::NotSimple => b"not-simple",
        Reason::Register => b"register",
        Reason::Ccr => b"ccr",
        Reason::Memory => b"memory",
        Reason::Refill => b"refill",
        Reason::Folded => b"folded",
        Reason::Alone => b"alone",
        Reason::NotTaken => b"not-taken",
        Reason::Mispredicted => b"mispredicted",
        Reason::Static => b"static",
    }
}

// What the cache predicted.
fn predicted_word(answer: Answer) -> &'static [u8]
    ensures { result.now ≡ text_of (predicted_word answer) }
{
    match answer {
        Answer::NotConsulted => b"not-consulted",
        Answer::Miss => b"miss",
        Answer::PredictedNotTaken => b"predicted-not-taken",
        Answer::PredictedTaken => b"predicted-taken",
    }
}

// The two words of a retirement.
#[tactic(auto, using(rule_text::proofs::Each::each), unfolding(crate::specs::WhyLines::words_text))]
pub fn put_words(out: &mut [u8], at: usize, reason: Reason, answer: Answer) -> usize
    // There is room: only `put_line` calls this, where the room is known.
    requires { at + length (words_text reason answer) ≤ length out.old }
    ensures { written result out.new ≡ written_of out.old at (words_text reason answer) }
{
    let a = text::put_bytes(out, at, b" ");
    let b = text::put_bytes(out, a, reason_word(reason));
    let c = text::put_bytes(out, b, b" ");
    text::put_bytes(out, c, predicted_word(answer))
}

// The head of the window.
#[tactic(auto, using(rule_text::proofs::Each::each), unfolding(crate::specs::WhyLines::head_text))]
pub fn put_head(out: &mut [u8], at: usize, w: Window) -> usize
    // There is room: only `put_more` calls this, where the room is known.
    requires { at + length (head_text w) ≤ length out.old }
    ensures { written result out.new ≡ written_of out.old at (head_text w) }
{
    if w.opened {
        let a = text::put_bytes(out, at, b" ");
        let b = text::put_hex::<4>(out, a, u32::from(w.op));
        let c = text::put_bytes(out, b, b" ");
        return text::put_hex::<8>(out, c, w.address);
    }
    text::put_bytes(out, at, b" - -")
}
