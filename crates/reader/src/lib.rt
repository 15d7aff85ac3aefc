// Reading a file into lent slices. Definitions: specs/.
#![tactic(auto)]

ghost use Rattle.std.specs.Prelude.{◌≡◌, ◌≤◌, length};
ghost use Rattle.model.specs.Files.{laid_system};
ghost use Rattle.model.specs.Says.{filled};
ghost use Rattle.reader.specs.Says.{ReadSays};

use answers::Refusal;
use checker::check;
use model::{LaidFile, Model, words_in};
use numbers::read_words;

// Fills the slices with the kind and the threshold of each line.
fn read_lines(file: LaidFile, kinds: &mut [u8], thresholds: &mut [u8])
    requires { (file.model.lines ≤ length kinds.old) × (file.model.lines ≤ length thresholds.old) }
    ensures kinds { kinds.new ≡ filled 0 (laid_system file.entry).kinds kinds.old }
    ensures thresholds { thresholds.new ≡ filled 0 (laid_system file.entry).thresholds thresholds.old }
{
    for i in 0..file.model.lines {
        kinds[i] = file.kind(i);
        thresholds[i] = file.threshold(i);
    }
}

// Fills the slices with the signs, kinds, thresholds and words of a file, and answers its two counts; a refusal changes nothing.
pub fn read(
    file: &[u8],
    signs: &mut [u8],
    kinds: &mut [u8],
    thresholds: &mut [u8],
    words: &mut [u64],
) -> Result<Model, Refusal>
    ensures { ReadSays file.now signs.old kinds.old thresholds.old words.old result
        signs.new kinds.new thresholds.new words.new }
{
    let held = check(file)?;
    let m = held.model;
    let n = m.lines;
    let d = m.levels;
    if signs.len() < d || kinds.len() < n || thresholds.len() < n || words.len() < n * d {
        return Err(Refusal::Room);
    }
    let signs_at = Model::SIGNS_AT;
    let kinds_at = m.kinds_at();
    let words_at = words_in(held.bytes);
    signs[..d].copy_from_slice(&held.bytes[signs_at..kinds_at]);
    read_lines(held.laid(), kinds, thresholds);
    read_words(&held.bytes[words_at..], n * d, words);
    Ok(m)
}
