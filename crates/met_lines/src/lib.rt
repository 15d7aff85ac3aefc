// The lines of a file that can be met from line 0, and the share of good lines among them. Definitions: specs/.
#![tactic(auto)]

ghost use Rattle.std.specs.Prelude.{◌≡◌, ◌+◌, ◌*◌, ◌≤◌, length, drop};
ghost use Rattle.numbers.specs.Numbers.{words_from};
ghost use Rattle.model.specs.Files.{laid_system};
ghost use Rattle.met_lines.specs.MetLines.{union_of, met_lines, met_share};

use model::{LaidFile, words_in};
use numbers::u64_at;

// The lines that the d words from an offset on select.
fn operand_set(file: &[u8], at: usize, d: usize) -> u64
    requires { (d ≤ 8) × (at + 8 * d ≤ length file.now) }
    ensures { result ≡ union_of (words_from d (drop at file.now)) }
{
    let mut set: u64 = 0;
    for k in 0..d {
        set |= u64_at(file, at + 8 * k);
    }
    set
}

// The lines that can be met from line 0: a search over each line's operands.
pub fn met_lines(file: LaidFile) -> u64
    requires le_lines { 1 ≤ file.model.lines }
    ensures { result ≡ met_lines (laid_system file.entry) }
{
    let n = file.model.lines;
    let d = file.model.levels;
    let words = words_in(file.bytes);
    let mut operands = [0u64; 64];
    for i in 0..n {
        operands[i] = operand_set(file.bytes, words + 8 * (i * d), d);
    }
    reach::reached(&operands[..n], sets::full_set(n), 1)
}

// The share of the good lines among those that can be met.
pub fn met_share(file: LaidFile, good: u64) -> u64
    requires le_lines { 1 ≤ file.model.lines }
    ensures { result ≡ met_share (laid_system file.entry) good }
{
    let met = met_lines(file);
    share::share_of(sets::member_count(good & met), sets::member_count(met))
}
