// The route over built-in trees. No tree is stored: a child of S(n, h + 1) is S(m, h), and m is found by its place among the children.
#![tactic(auto)]

ghost use Rattle.std.specs.Prelude.{◌≡◌, List, [], ℕ, suc, ◌<◌, ◌≤◌, get_or};
ghost use Rattle.trees.specs.Built.{built, built_children};
ghost use Rattle.model.specs.Files.{held_system};
ghost use Rattle.evaluator.specs.ByLevels.{Carried, SomeCarry};
ghost use Rattle.routes.specs.Parts.{LineCount, Gives, least_of, greatest_of, restricted_from, queries_from};

use evaluator::{Bounds, Carry, decide, lower_needs};
use model::HeldFile;
use routes::{Found, innermost_level};

// The lines that child i of S(n, h + 1) is for, whatever h: those of S(n/2, h + 1) come first, then S(n, h), then those of S((n - 1)/2, h + 1).
fn child_lines(n: usize, i: usize) -> usize
    requires { i < n }
    ensures few { (1 ≤ result) × (result ≤ n) }
    ensures child { (h : ℕ) → get_or (built_children n h) i [] ≡ built result h }
{
    let mut lines = n;
    let mut at = i;
    loop {
        let first = lines / 2;
        let second = (lines - 1) / 2;
        if at == first {
            return lines;
        }
        if at < first {
            lines = first;
        } else {
            lines = second;
            at = at - first - 1;
        }
    }
}

// The restricted set of the levels k, .., 1 over S(p, h) and S(q, g), h and g being the least and the greatest of these levels.
#[cycle(built_level)]
#[inline(always)]
pub fn built_level(
    file: HeldFile,
    k: usize,
    bounds: Bounds,
    carry: Carry,
    p: usize,
    q: usize,
) -> Found
    requires carried { SomeCarry (held_system file) k bounds.low bounds.high carry.pending carry.needs.now }
    requires k_nonzero { (0 < k) × (k ≤ file.model.levels) }
    requires line_count { LineCount p × LineCount q }
    ensures { let s = held_system file.entry in
        let w = carry.entry in
        let u = built p (least_of s k) in
        let v = built q (greatest_of s k) in
        (ys : List ℕ) → Carried s k ys bounds.low bounds.high w.pending w.needs.now → Gives result (restricted_from s k ys bounds.low bounds.high u v) (queries_from s k u v) }
{
    let below = k - 1;
    if below == 0 {
        let greatest = file.is_greatest(below);
        let lines = if greatest { q } else { p };
        return innermost_level(file, bounds, carry, greatest, lines);
    }
    outer_level(file, below, bounds, carry, p, q)
}

// The same of a level with `below` levels below it. It goes over the children of the tree of its sign: each moves its bound, and with it the value. It is a
// function of its own, so that an innermost level is compiled into the loop that goes over it, and is no call.
#[cycle(built_level)]
fn outer_level(
    file: HeldFile,
    below: usize,
    bounds: Bounds,
    carry: Carry,
    p: usize,
    q: usize,
) -> Found
    requires carried { SomeCarry (held_system file) (suc below) bounds.low bounds.high carry.pending carry.needs.now }
    requires below_nonzero { (0 < below) × (below < file.model.levels) }
    requires line_count { LineCount p × LineCount q }
    ensures { let s = held_system file.entry in
        let w = carry.entry in
        let u = built p (least_of s (suc below)) in
        let v = built q (greatest_of s (suc below)) in
        (ys : List ℕ) → Carried s (suc below) ys bounds.low bounds.high w.pending w.needs.now
        → Gives result (restricted_from s (suc below) ys bounds.low bounds.high u v) (queries_from s (suc below) u v) }
{
    let greatest = file.is_greatest(below);
    let lines = if greatest { q } else { p };
    let mut set = bounds.start(greatest);
    let mut count: u64 = 0;
    for i in 0..lines {
        let n = child_lines(lines, i);
        let (least, most) = if greatest { (p, n) } else { (n, q) };
        let between = bounds.moved(greatest, set);
        let decision = decide(file, below, set, between, carry);
        let next = Carry {
            pending: decision.pending,
            ..carry
        };
        let found = if decision.lowered == 0 {
            built_level(file, below, between, next, least, most)
        } else {
            let needs = lower_needs(file, below, set, decision.lowered, carry.needs);
            let lowered = Carry {
                needs: &needs,
                ..next
            };
            built_level(file, below, between, lowered, least, most)
        };
        set = found.set;
        count += found.count;
    }
    Found { set, count }
}
