// Writing a model's file into a lent buffer. Definitions: specs/.
#![tactic(auto)]

ghost use Rattle.std.specs.Prelude.{◌≡◌, [], ◌*◌, ◌≤◌, length};
ghost use Rattle.system.specs.System.{system_of};
ghost use Rattle.system.specs.Query.{operand_count};
ghost use Rattle.model.specs.Checks.{some_below, threshold_misfits};
ghost use Rattle.writer.specs.Says.{WriteSays};

use answers::Refusal;
use encoder::put_file;
use model::{Model, misfits, one_over, one_strays};

// The number of operands of a line with these words.
fn operand_count(words: &[u64]) -> usize
    requires { length words.now ≤ 8 }
    ensures { result ≡ operand_count words.now }
{
    words
        .iter()
        .map(|word| sets::member_count(*word) as usize)
        .sum()
}

// Whether a line of a model with d levels has a threshold that does not fit it.
fn one_misfits(d: usize, kinds: &[u8], thresholds: &[u8], words: &[u64]) -> bool
    requires kinds_len_bound { (length kinds.now ≤ 64) × (d ≤ 8) }
    requires thresholds_len { length thresholds.now ≡ length kinds.now }
    requires words_len { length words.now ≡ length kinds.now * d }
    ensures { let n = length kinds.now in
        result ≡ some_below n (threshold_misfits (system_of n d [] kinds.now thresholds.now words.now)) }
{
    (0..kinds.len()).any(|i| {
        let operands = operand_count(&words[i * d..i * d + d]);
        misfits(kinds[i], thresholds[i], operands)
    })
}

// Writes the file of a model with these counts, signs, kinds, thresholds and words; a refusal changes nothing.
pub fn write(
    n: usize,
    d: usize,
    signs: &[u8],
    kinds: &[u8],
    thresholds: &[u8],
    words: &[u64],
    buffer: &mut [u8],
) -> Result<usize, Refusal>
    ensures { WriteSays (system_of n d signs.now kinds.now thresholds.now words.now) buffer.old result buffer.new }
{
    let m = Model::new(n, d)?;
    if signs.len() != d || kinds.len() != n || thresholds.len() != n || words.len() != n * d {
        return Err(Refusal::SliceLength);
    }
    if one_over(signs, 1) || one_over(kinds, 2) {
        return Err(Refusal::SignOrKind);
    }
    if one_strays(words, n) {
        return Err(Refusal::StraySelection);
    }
    if one_misfits(d, kinds, thresholds, words) {
        return Err(Refusal::Threshold);
    }
    let length = m.file_length();
    if buffer.len() < length {
        return Err(Refusal::Room);
    }
    put_file(m, signs, kinds, thresholds, words, buffer);
    Ok(length)
}
