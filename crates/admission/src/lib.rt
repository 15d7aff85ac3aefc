// What judging turns down before it begins: a file that checking refuses, misplaced bounds, a bad lent tree; and the forecast of judging by built-in trees,
// which its ceiling is held against. Definitions: specs/.
#![tactic(auto)]

ghost use Rattle.std.specs.Prelude.{◌≡◌, ◌≤◌, IfOk};
ghost use Rattle.answers.specs.Check.{unless};
ghost use Rattle.model.specs.File.{lines_in, levels_in};
ghost use Rattle.model.specs.Says.{sized};
ghost use Rattle.model.specs.Files.{held_system, held_answer};
ghost use Rattle.admission.specs.Checks.{misplaced, bad_tree, bound_number, forecast};

use answers::Refusal;
use model::{HeldFile, Model};

// Whether a bound has a line of n or more, or the lower is not within the upper.
fn bounds_misplaced(n: usize, a: u64, b: u64) -> bool
    requires { n ≤ 64 }
    ensures { result ≡ misplaced n a b }
{
    let all = sets::full_set(n);
    !sets::within(a, all) || !sets::within(b, all) || !sets::within(a, b)
}

// Refusals 1 to 7, 14 and 9, which all judging makes, or the file with its counts.
pub fn admit(file: &[u8], a: u64, b: u64) -> Result<HeldFile<'_>, Refusal>
    ensures answer { held_answer result ≡ unless (bound_number file.now a b) (sized (lines_in file.now) (levels_in file.now)) }
    ensures same { IfOk result (λ held. held.bytes.now ≡ file.now) }
{
    let held = checker::check(file)?;
    if bounds_misplaced(held.model.lines, a, b) {
        return Err(Refusal::Bounds);
    }
    Ok(held)
}

// Whether a lent tree has too many gaps, or one that is 0 or above its height.
pub fn tree_is_bad(gaps: &[u8], h: usize) -> bool
    ensures { result ≡ bad_tree h gaps.now }
{
    Model::MAX_GAPS < gaps.len() || gaps.iter().any(|gap| *gap == 0 || h < *gap as usize)
}

// How many queries judging by built-in trees will make: the leaves of both trees, multiplied.
pub fn forecast(file: HeldFile) -> u64
    ensures { result ≡ forecast (held_system file.entry) }
{
    let least = routes::count_least(file);
    let greatest = file.model.levels - least;
    trees::leaf_count_at(file.model.lines, least) * trees::leaf_count_at(file.model.lines, greatest)
}
