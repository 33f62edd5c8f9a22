// The whole text that the cost lister prints, of a trace, its costs as bytes, and the verdict of its run. `list_into`
// runs the trace.
ghost use Rattle.std.specs.Prelude.{◌≡◌, ◌++◌, ◌+◌, ◌≤◌, length};
ghost use Rattle.text.specs.Written.{written, written_of};
ghost use Rattle.records.specs.Trace.{read_trace};
ghost use Rattle.records.specs.Judged.{Fits};
ghost use Rattle.listing.specs.Lines.{header_line, total_line};
ghost use Rattle.listing.specs.Printed.{lines_of, Ready, printed};

use refusals::Verdict;
use state::Event;

// A line for each retirement of a trace whose records are all sound, with the costs as bytes.
fn put_lines(trace: &[u8], costs: &[u8], out: &mut [u8], start: usize) -> usize
    requires fits { Fits 0 (length costs.now) (read_trace trace.now) }
    requires trace_in_bounds { start + length (lines_of 0 costs.now (read_trace trace.now)) ≤ length out.old }
    ensures { written result out.new
        ≡ written_of out.old start (lines_of 0 costs.now (read_trace trace.now)) }
{
    let mut place = start;
    let mut index: usize = 0;
    for (_, event) in records::events_of(trace) {
        if let Event::Retired(r) = event {
            let clocks = little_endian::u32_at(costs, 4 * index);
            place = crate::lines::put_line(out, place, index, r.op, clocks);
            index += 1;
        }
    }
    place
}

// The whole text of a trace whose records are all sound.
#[tactic(auto, using(text::proofs::Behind::behind, crate::proofs::Lengths::total_most))]
fn put_table(trace: &[u8], costs: &[u8], out: &mut [u8], count: usize, sum: u64) -> usize
    requires fits { Fits 0 (length costs.now) (read_trace trace.now) }
    requires trace_in_bounds { length (lines_of 0 costs.now (read_trace trace.now)) + 68 ≤ length out.old }
    ensures { written result out.new
        ≡ written_of out.old 0 (header_line ++ lines_of 0 costs.now (read_trace
        trace.now) ++ total_line count sum) }
{
    let a = crate::lines::put_header(out, 0);
    let b = put_lines(trace, costs, out, a);
    crate::lines::put_total(out, b, count, sum)
}

// The text by the verdict of the run.
pub fn put_text(
    trace: &[u8],
    costs: &[u8],
    out: &mut [u8],
    verdict: Verdict,
    count: usize,
    sum: u64,
) -> usize
    // There is room, and a cost for each retirement: only `list_into` calls this, after the run.
    requires { Ready verdict trace.now costs.now (length out.old) }
    ensures { written result out.new
        ≡ written_of out.old 0 (printed verdict trace.now costs.now count sum) }
{
    match verdict {
        Err(refusal) => crate::lines::put_refusal(out, 0, refusal),
        Ok(()) => put_table(trace, costs, out, count, sum),
    }
}
