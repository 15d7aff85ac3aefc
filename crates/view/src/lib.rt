// A model in use: one query of a file at hand, and its three judgings. Definitions: specs/.
#![tactic(auto)]

ghost use Rattle.std.specs.Prelude.{◌≡◌, ◌<◌, length};
ghost use Rattle.fixpoint.specs.Lawful.{Range};
ghost use Rattle.fixpoint.specs.Sets.{sets};
ghost use Rattle.system.specs.Query.{query as querySet};
ghost use Rattle.model.specs.Files.{held_system};
ghost use Rattle.view.specs.View.{Fitting, PlainIs, BuiltIs, LentIs};

use evaluator::{Bounds, Carry, begin, initial_needs};
use lent_route::LentTree;
use model::HeldFile;
use plain_route::Settled;
use routes::Found;

// One query, at as many arguments as the file has levels.
pub fn query(file: HeldFile, xs: &[u64]) -> u64
    requires { length xs.now ≡ file.model.levels }
    ensures { result ≡ querySet (held_system file.entry) xs.now }
{
    one_query::evaluate(file, xs)
}

// The plain rounds, with at most `ceiling` queries.
pub fn plain(file: HeldFile, bounds: Bounds, ceiling: u64) -> Option<Settled>
    requires { (0 < file.model.levels) × Range (sets file.model.lines) bounds.low bounds.high }
    ensures { PlainIs (held_system file.entry) bounds.low bounds.high ceiling result }
{
    let needs = initial_needs(file);
    let carry = Carry {
        pending: begin(file),
        needs: &needs,
    };
    plain_route::plain_level(file, bounds, file.model.levels, carry, ceiling)
}

// The restricted set over the built-in trees for the file's lines.
pub fn built(file: HeldFile, bounds: Bounds) -> Found
    requires { (0 < file.model.lines) × (0 < file.model.levels) }
    ensures { BuiltIs (held_system file.entry) bounds.low bounds.high result }
{
    let needs = initial_needs(file);
    let carry = Carry {
        pending: begin(file),
        needs: &needs,
    };
    let m = file.model;
    built_route::built_level(file, m.levels, bounds, carry, m.lines, m.lines)
}

// The restricted set over two lent trees.
pub fn lent<'a>(file: HeldFile, bounds: Bounds, u: LentTree<'a>, v: LentTree<'a>) -> Found
    requires { (0 < file.model.levels) × Fitting (held_system file) u.height u.gaps.now v.height v.gaps.now }
    ensures { LentIs (held_system file.entry) bounds.low bounds.high u.entry.gaps.now v.entry.gaps.now result }
{
    let needs = initial_needs(file);
    let carry = Carry {
        pending: begin(file),
        needs: &needs,
    };
    lent_route::lent_level(file, file.model.levels, bounds, carry, u, v)
}
