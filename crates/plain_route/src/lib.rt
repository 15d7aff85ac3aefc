// The plain route: rounds of each level from its own start, under a ceiling on the queries. Definitions: specs/.
#![tactic(auto)]

ghost use Rattle.std.specs.Prelude.{◌≡◌, List, ℕ, suc, ◌<◌, ◌≤◌, ◌^◌};
ghost use Rattle.model.specs.Files.{held_system};
ghost use Rattle.evaluator.specs.ByLevels.{Carried, SomeCarry};
ghost use Rattle.routes.specs.Parts.{plain_from};
ghost use Rattle.plain_route.specs.Under.{under};

use evaluator::{Bounds, Carry, decide, lower_needs, settle};
use model::HeldFile;

// How a run under a ceiling ends that needs no more queries than the ceiling allows: with this set, and so much of the ceiling left.
#[derive(Clone, Copy, Debug, PartialEq, Eq)]
pub struct Settled {
    pub set: u64,
    pub left: u64,
}

// The rounds of the innermost level: each is one query, and takes one off what is left of the ceiling.
#[inline(always)]
fn innermost_rounds(file: HeldFile, bounds: Bounds, carry: Carry, left: u64) -> Option<Settled>
    requires { (0 < file.model.levels) × (carry.pending.undecided < 2 ^ file.model.lines) }
    ensures { let s = held_system file.entry in
        let w = carry.entry in
        (rounds : ℕ) → left < rounds → (ys : List ℕ) → Carried s 1 ys bounds.low bounds.high w.pending w.needs.now → result ≡ under left (plain_from rounds s bounds.low bounds.high 1 ys) }
{
    let mut x = bounds.start(file.is_greatest(0));
    for rest in (0..left).rev() {
        let set = settle(file, x, bounds, carry);
        if set == x {
            return Some(Settled { set, left: rest });
        }
        x = set;
    }
    None
}

// The plain rounds of the levels k, .., 1, or nothing where they need more queries than the ceiling allows.
#[cycle(levels)]
#[inline(always)]
pub fn plain_level(
    file: HeldFile,
    bounds: Bounds,
    k: usize,
    carry: Carry,
    left: u64,
) -> Option<Settled>
    requires carried { SomeCarry (held_system file) k bounds.low bounds.high carry.pending carry.needs.now }
    requires k_nonzero { (0 < k) × (k ≤ file.model.levels) }
    ensures { let s = held_system file.entry in
        let w = carry.entry in
        (rounds : ℕ) → left < rounds → (ys : List ℕ) → Carried s k ys bounds.low bounds.high w.pending w.needs.now → result ≡ under left (plain_from rounds s bounds.low bounds.high k ys) }
{
    let below = k - 1;
    if below == 0 {
        return innermost_rounds(file, bounds, carry, left);
    }
    outer_level(file, bounds, below, carry, left)
}

// Level below + 1, which has levels below it. A function of its own, so that an innermost level is compiled into the rounds of the level around it and is no call.
#[cycle(levels)]
fn outer_level(
    file: HeldFile,
    bounds: Bounds,
    below: usize,
    carry: Carry,
    left: u64,
) -> Option<Settled>
    requires carried { SomeCarry (held_system file) (suc below) bounds.low bounds.high carry.pending carry.needs.now }
    requires below_nonzero { (0 < below) × (below < file.model.levels) }
    ensures { let s = held_system file.entry in
        let w = carry.entry in
        let k = suc below in
        (rounds : ℕ) → left < rounds → (ys : List ℕ) → Carried s k ys bounds.low bounds.high w.pending w.needs.now → result ≡ under left (plain_from rounds s bounds.low bounds.high k ys) }
{
    let mut x = bounds.start(file.is_greatest(below));
    let mut rest = left;
    let mut row = [0u8; 64];
    'rounds: loop {
        let decision = decide(file, below, x, bounds, carry);
        let needs = if decision.lowered == 0 {
            carry.needs
        } else {
            row = lower_needs(file, below, x, decision.lowered, carry.needs);
            &row
        };
        let next = Carry {
            pending: decision.pending,
            needs,
        };
        let round = plain_level(file, bounds, below, next, rest);
        let Settled { set, left: unused } = round?;
        // Made anew, and not the round handed on, which is equal: on dense models that copy takes up to two thirds as long again (docs/DECISIONS.md, "Speed").
        if set == x {
            return Some(Settled { set, left: unused });
        }
        x = set;
        rest = unused;
    }
}
