// Checking a file: document 01's refusals 1 to 7, and 14 (request W4). Definitions: specs/.
#![tactic(auto)]

ghost use Rattle.std.specs.Prelude.{false, ◌≡◌, ◌+◌, ◌*◌, ◌≤◌, ◌<◌, ltb, length, drop, IfOk};
ghost use Rattle.answers.specs.Check.{first_of, unless};
ghost use Rattle.system.specs.Query.{operand_count};
ghost use Rattle.model.specs.File.{lines_in, levels_in, is_old, highest_kind};
ghost use Rattle.numbers.specs.Numbers.{words_from};
ghost use Rattle.model.specs.Checks.{some, some_below, strays, threshold_misfits};
ghost use Rattle.model.specs.Files.{laid_system, held_answer};
ghost use Rattle.checker.specs.Checks.{header_checks, check_answer};
ghost use Rattle.model.specs.Says.{reading_answer, sized};

use answers::Refusal;
use model::{HeldFile, Kind, LaidFile, Model, is_old, misfits, one_over, words_in};
use numbers::{u16_at, u32_at, u64_at};

// What is wrong with the lines of a file.
#[derive(Clone, Copy)]
struct LineFaults {
    kind: bool,
    threshold: bool,
}

// The number of operands that the d words from an offset on select.
fn operand_count(file: &[u8], at: usize, d: usize) -> usize
    requires { (d ≤ 8) × (at + 8 * d ≤ length file.now) }
    ensures { result ≡ operand_count (words_from d (drop at file.now)) }
{
    let mut count = 0;
    for k in 0..d {
        count += sets::member_count(u64_at(file, at + 8 * k)) as usize;
    }
    count
}

// Whether line i has a threshold that does not fit it. Only a vote's operands are counted.
fn line_misfits(file: LaidFile, i: usize) -> bool
    requires { i < file.model.lines }
    ensures { result ≡ threshold_misfits (laid_system file.entry) i }
{
    let d = file.model.levels;
    let kind = file.kind(i);
    let count = match Kind::from(kind) {
        Kind::Any | Kind::All => 0,
        Kind::Vote => operand_count(file.bytes, words_in(file.bytes) + 8 * (i * d), d),
    };
    misfits(kind, file.threshold(i), count)
}

// Whether a kind is over the highest of the file's layout and, where none is, whether a threshold does not fit its line. An old file has no thresholds, and its
// kinds stand side by side.
fn line_faults(file: LaidFile) -> LineFaults
    ensures kinds { result.kind ≡ some (ltb (highest_kind (is_old file.entry.model.lines file.entry.model.levels file.entry.bytes.now))) (laid_system file.entry).kinds }
    ensures thresholds { result.kind ≡ false → result.threshold ≡ some_below file.entry.model.lines (threshold_misfits (laid_system file.entry)) }
{
    let m = file.model;
    if is_old(file.bytes, m) {
        let first = m.kinds_at();
        let last = m.old_words_at();
        return LineFaults {
            kind: one_over(&file.bytes[first..last], 1),
            threshold: false,
        };
    }
    let mut over = false;
    let mut misfit = false;
    for i in 0..m.lines {
        over = over || 2 < file.kind(i);
        misfit = misfit || line_misfits(file, i);
    }
    LineFaults {
        kind: over,
        threshold: misfit,
    }
}

// Whether a selected line is none of the model's; the first ends the search.
fn stray_selection(file: LaidFile) -> bool
    ensures { result ≡ some (strays file.entry.model.lines) (laid_system file.entry).words }
{
    let n = file.model.lines;
    let d = file.model.levels;
    let all = sets::full_set(n);
    let first = words_in(file.bytes);
    let mut stray = false;
    'search: for i in 0..n {
        for k in 0..d {
            let w = u64_at(file.bytes, first + 8 * (i * d + k));
            if w & all != w {
                stray = true;
                break 'search;
            }
        }
    }
    stray
}

// Refusals 1 to 5, or the counts.
fn check_header(file: &[u8]) -> Result<Model, Refusal>
    ensures { reading_answer result ≡ unless (first_of (header_checks file.now)) (sized (lines_in file.now) (levels_in file.now)) }
{
    if file.len() < 16 {
        return Err(Refusal::HeaderShort);
    }
    let m = Model::new(u16_at(file, 0) as usize, u16_at(file, 2) as usize)?;
    if u32_at(file, 4) as usize != Model::SIGNS_AT || u32_at(file, 8) as usize != m.kinds_at() {
        return Err(Refusal::Offset);
    }
    let words = words_in(file);
    if words != m.words_at() && words != m.old_words_at() {
        return Err(Refusal::Offset);
    }
    if file.len() != words + 8 * (m.lines * m.levels) {
        return Err(Refusal::FileLength);
    }
    Ok(m)
}

// The file with its two counts, if it is a model's, or the first of document 01's refusals 1 to 7 and 14 that applies.
pub fn check(file: &[u8]) -> Result<HeldFile<'_>, Refusal>
    ensures answer { held_answer result ≡ check_answer file.now }
    ensures same { IfOk result (λ held. held.bytes.now ≡ file.now) }
{
    let model = check_header(file)?;
    let laid = LaidFile { bytes: file, model };
    if one_over(&file[Model::SIGNS_AT..model.kinds_at()], 1) {
        return Err(Refusal::SignOrKind);
    }
    let faults = line_faults(laid);
    if faults.kind {
        return Err(Refusal::SignOrKind);
    }
    if stray_selection(laid) {
        return Err(Refusal::StraySelection);
    }
    if faults.threshold {
        return Err(Refusal::Threshold);
    }
    Ok(HeldFile { bytes: file, model })
}
