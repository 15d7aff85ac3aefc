// The public operations on a file: one query, and each of the three judgings. Each takes all inputs, ends, and answers a set,
// judging with a count, or one refusal by document 01's order. Definitions: specs/.
#![tactic(auto)]

ghost use Rattle.std.specs.Prelude.{◌≡◌};
ghost use Rattle.solver.specs.Says.{queried_answer, query_answer, PlainSays, BuiltSays, LentSays};
ghost use Rattle.solver.specs.declared.Unjudged.TheVariants.{Refused};

use admission::{admit, forecast, tree_is_bad};
use answers::Refusal;
use evaluator::Bounds;
use lent_route::LentTree;
use plain_route::Settled;
use routes::Found;

// The ceiling that the judging program and the bench page pass.
pub const PROGRAM_CEILING: u64 = 1_000_000;

// Why nothing was judged.
#[derive(Clone, Copy, Debug, PartialEq, Eq)]
pub enum Unjudged {
    // Refused with 10 and this count, the forecast (request W8).
    OverCeiling(u64),
    Refused(Refusal),
}

impl From<Refusal> for Unjudged {
    ghost from_gives = { λ e u. u ≡ Refused e };

    fn from(e: Refusal) -> Unjudged {
        Unjudged::Refused(e)
    }
}

// The set that one query of a file gives at the arguments xs, level 1 first.
pub fn query(file: &[u8], xs: &[u64]) -> Result<u64, Refusal>
    ensures { queried_answer result ≡ query_answer file.now xs.now }
{
    let held = checker::check(file)?;
    if xs.len() != held.model.levels {
        return Err(Refusal::SliceLength);
    }
    if model::one_strays(xs, held.model.lines) {
        return Err(Refusal::Bounds);
    }
    Ok(view::query(held, xs))
}

// Judges by plain rounds, with at most `ceiling` queries.
pub fn solve_plain(file: &[u8], a: u64, b: u64, ceiling: u64) -> Result<Found, Unjudged>
    ensures { PlainSays file.now a b ceiling result }
{
    let held = admit(file, a, b)?;
    let run = view::plain(held, Bounds { low: a, high: b }, ceiling);
    let Settled { set, left } = run.ok_or(Refusal::Ceiling)?;
    Ok(Found {
        set,
        count: ceiling - left,
    })
}

// Judges by the built-in trees for the file's lines, if the forecast is not over the ceiling.
pub fn solve_built(file: &[u8], a: u64, b: u64, ceiling: u64) -> Result<Found, Unjudged>
    ensures { BuiltSays file.now a b ceiling result }
{
    let held = admit(file, a, b)?;
    let queries = forecast(held);
    if ceiling < queries {
        return Err(Unjudged::OverCeiling(queries));
    }
    Ok(view::built(held, Bounds { low: a, high: b }))
}

// Judges by two lent trees, given by their gaps: u for the least levels and v for the greatest.
pub fn solve_lent(file: &[u8], a: u64, b: u64, u: &[u8], v: &[u8]) -> Result<Found, Unjudged>
    ensures { LentSays file.now a b u.now v.now result }
{
    let held = admit(file, a, b)?;
    let least = routes::count_least(held);
    let greatest = held.model.levels - least;
    if tree_is_bad(u, least) || tree_is_bad(v, greatest) {
        return Err(Unjudged::Refused(Refusal::Tree));
    }
    let least_tree = LentTree {
        height: least,
        gaps: u,
    };
    let greatest_tree = LentTree {
        height: greatest,
        gaps: v,
    };
    Ok(view::lent(held, Bounds { low: a, high: b }, least_tree, greatest_tree))
}
