// The judging program's text for an input. Definitions: specs/.
#![tactic(auto)]

ghost use Rattle.std.specs.Prelude.{◌+◌, ◌≤◌, length};
ghost use Rattle.model.specs.Files.{laid_system};
ghost use Rattle.solver.specs.Says.{judged_answer};
ghost use Rattle.text.specs.Text.{Puts};
ghost use Rattle.report.specs.Report.{found_line, answer_line, share_line, made_text};

use answers::Refusal;
use model::LaidFile;
use routes::Found;
use solver::{PROGRAM_CEILING, Unjudged};
use text::{put, put_hex, put_number_line, put_refused};

// The text of any input fits in so many bytes.
pub const REPORT_SIZE: usize = 144;

// The rest of a line for a set and its count.
fn put_found(out: &mut [u8], at: usize, found: Found) -> usize
    requires { at + 38 ≤ length out.old }
    ensures { Puts at (found_line found.set found.count) out.old out.new result }
{
    let digits = put_hex(out, at, found.set);
    put_number_line(out, digits, b" ", found.count)
}

// The rest of a line for a judgement.
fn put_judged(out: &mut [u8], at: usize, judged: Result<Found, Unjudged>) -> usize
    requires { at + 50 ≤ length out.old }
    ensures { Puts at (answer_line (judged_answer judged)) out.old out.new result }
{
    match judged {
        Ok(found) => put_found(out, at, found),
        Err(Unjudged::OverCeiling(forecast)) => {
            put_refused(out, at, u64::from(Refusal::Ceiling), forecast)
        }
        Err(Unjudged::Refused(e)) => put_refused(out, at, u64::from(e), 0),
    }
}

// The share's line for a file's judgement.
fn put_share(file: LaidFile, judged: Result<Found, Unjudged>, out: &mut [u8], at: usize) -> usize
    requires le_lines { 1 ≤ file.model.lines }
    requires in_bounds { at + 27 ≤ length out.old }
    ensures { Puts at (share_line (laid_system file.entry) (judged_answer judged)) out.old out.new result }
{
    let Ok(found) = judged else {
        return put(out, at, b"share none\n");
    };
    put_number_line(out, at, b"share ", met_lines::met_share(file, found.set))
}

// Puts the text for an input into a buffer of at least REPORT_SIZE bytes, keeps the bytes behind it, and answers its length;
// in a shorter buffer, nothing.
pub fn report(file: &[u8], out: &mut [u8]) -> usize
    ensures { Puts 0 (made_text file.now out.old) out.old out.new result }
{
    if out.len() < REPORT_SIZE {
        return 0;
    }
    let held = match checker::check(file) {
        Ok(held) => held,
        Err(e) => return put_refused(out, 0, u64::from(e), 0),
    };
    let all = sets::full_set(held.model.lines);
    let plain = put(out, 0, b"plain ");
    let plain_end = put_judged(
        out,
        plain,
        solver::solve_plain(file, 0, all, PROGRAM_CEILING),
    );
    let judged = solver::solve_built(file, 0, all, PROGRAM_CEILING);
    let tree = put(out, plain_end, b"tree ");
    let tree_end = put_judged(out, tree, judged);
    put_share(held.laid(), judged, out, tree_end)
}
