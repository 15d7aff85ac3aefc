// The innermost level: no level is below it, so every child of its tree is a leaf and takes one query.
ghost use Rattle.std.specs.Prelude.{List, [], ℕ, ◌<◌, ◌^◌, replicate};
ghost use Rattle.model.specs.Files.{held_system};
ghost use Rattle.evaluator.specs.ByLevels.{Carried};
ghost use Rattle.routes.specs.Parts.{Gives, level_from, level_queries};

use super::shared::Found;
use evaluator::{Bounds, Carry, settle};
use model::HeldFile;

// An innermost level of a sign over so many leaves, whatever the tree of the levels of the other sign.
#[inline(always)]
fn over_leaves(file: HeldFile, bounds: Bounds, carry: Carry, greatest: bool, leaves: usize) -> Found
    requires { (0 < file.model.levels) × (carry.pending.undecided < 2 ^ file.model.lines) }
    ensures { let s = held_system file.entry in
        let w = carry.entry in
        let ts = replicate leaves [] in
        (u v ys : List ℕ) → Carried s 1 ys bounds.low bounds.high w.pending w.needs.now
        → Gives result (level_from greatest s 0 ys bounds ts u v) (level_queries greatest s 0 ts u v) }
{
    let mut set = bounds.start(greatest);
    for _ in 0..leaves {
        set = settle(file, set, bounds.moved(greatest, set), carry);
    }
    Found {
        set,
        count: leaves as u64,
    }
}

// The same. It is compiled once for each sign, so that no leaf asks for it.
#[inline(always)]
pub fn innermost_level(
    file: HeldFile,
    bounds: Bounds,
    carry: Carry,
    greatest: bool,
    leaves: usize,
) -> Found
    requires { (0 < file.model.levels) × (carry.pending.undecided < 2 ^ file.model.lines) }
    ensures { let s = held_system file.entry in
        let w = carry.entry in
        let ts = replicate leaves [] in
        (u v ys : List ℕ) → Carried s 1 ys bounds.low bounds.high w.pending w.needs.now
        → Gives result (level_from greatest s 0 ys bounds ts u v) (level_queries greatest s 0 ts u v) }
{
    if greatest {
        over_leaves(file, bounds, carry, true, leaves)
    } else {
        over_leaves(file, bounds, carry, false, leaves)
    }
}
