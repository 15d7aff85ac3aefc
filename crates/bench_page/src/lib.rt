// Making the bench page: a file's judgement as a page of text, in a lent buffer. Definitions: specs/.
#![tactic(auto)]

ghost use Rattle.bench_page.specs.Says.{PageSays};

use answers::Refusal;
use solver::{PROGRAM_CEILING, Unjudged};

// A row with its newline.
const ROW_LENGTH: usize = 41;

// The page of 64 lines: no page is longer.
pub const MAX_LENGTH: usize = 2665;

// Makes the page of a file's judgement by built-in trees, from no line to all lines, under the programs' ceiling, and answers its length; a refusal
// changes nothing.
pub fn make_page(file: &[u8], buffer: &mut [u8]) -> Result<usize, Unjudged>
    ensures { PageSays file.now buffer.old result buffer.new }
{
    let held = checker::check(file)?;
    let all = sets::full_set(held.model.lines);
    let found = solver::solve_built(file, 0, all, PROGRAM_CEILING)?;
    if buffer.len() < ROW_LENGTH * (held.model.lines + 1) {
        return Err(Unjudged::Refused(Refusal::Room));
    }
    Ok(page_layout::put_page(held.laid(), found.set, buffer))
}
