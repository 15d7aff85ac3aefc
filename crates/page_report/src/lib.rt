// The page program's text for an input. Definitions: specs/.
#![tactic(auto)]

ghost use Rattle.text.specs.Text.{Puts};
ghost use Rattle.page_report.specs.Report.{made_text};

use answers::Refusal;
use solver::Unjudged;

// The text of any input fits in so many bytes.
pub const REPORT_SIZE: usize = bench_page::MAX_LENGTH;

// Puts the text for an input into a buffer of at least REPORT_SIZE bytes, keeps the bytes behind it, and answers its length;
// in a shorter buffer, nothing.
pub fn report(file: &[u8], out: &mut [u8]) -> usize
    ensures { Puts 0 (made_text file.now out.old) out.old out.new result }
{
    if out.len() < REPORT_SIZE {
        return 0;
    }
    match bench_page::make_page(file, out) {
        Ok(length) => length,
        Err(Unjudged::OverCeiling(forecast)) => {
            text::put_refused(out, 0, u64::from(Refusal::Ceiling), forecast)
        }
        Err(Unjudged::Refused(e)) => text::put_refused(out, 0, u64::from(e), 0),
    }
}
