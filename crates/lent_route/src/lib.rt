// The route over lent trees, whose gaps stand in two slices.
#![tactic(auto)]

ghost use Rattle.std.specs.Prelude.{◌≡◌, ℕ, suc, ◌-◌, ◌<◌, ◌≤◌, List, length, get_or, drop};
ghost use Rattle.system.specs.System.{sign};
ghost use Rattle.model.specs.Files.{held_system};
ghost use Rattle.evaluator.specs.ByLevels.{Carried, SomeCarry};
ghost use Rattle.lent_route.specs.Child.{NoneBefore, FirstChild};
ghost use Rattle.lent_route.specs.LentProp.{Lent-prop};
ghost use Rattle.routes.specs.Parts.{Lent, Gives, least_of, greatest_of, restricted_from, queries_from};

use evaluator::{Bounds, Carry, Pending, decide, lower_needs};
use model::HeldFile;
use routes::{Found, innermost_level};

// A lent tree, or a part of one.
#[derive(Clone, Copy)]
pub struct LentTree<'a> {
    pub height: usize,
    pub gaps: &'a [u8],
    pub ghost lent: { Lent height gaps.now } by { Lent-prop height gaps.now },
}

// Where the first gap of h stands, or the length where there is none.
fn first_gap(gaps: &[u8], h: usize) -> usize
    ensures within { result ≤ length gaps.now }
    ensures before { NoneBefore gaps.now h result }
    ensures found { result < length gaps.now → get_or gaps.now result 0 ≡ h }
{
    for (i, gap) in gaps.iter().enumerate() {
        if *gap as usize == h {
            return i;
        }
    }
    gaps.len()
}

impl<'a> LentTree<'a> {
    // The root's first child among those that the gaps from `from` on have: the gaps up to the next gap of the root, or to the end.
    fn child_from(self, from: usize) -> LentTree<'a>
        requires { (0 < self.height) × (from ≤ length self.gaps.now) }
        ensures height { result.height ≡ self.entry.height - 1 }
        ensures gaps { FirstChild self.entry.height (drop from self.entry.gaps.now) result.gaps.now }
    {
        let rest = &self.gaps[from..];
        let cut = first_gap(rest, self.height);
        LentTree {
            height: self.height - 1,
            gaps: &rest[..cut],
        }
    }
}

// The restricted set of the levels k, .., 1 over the trees u and v, whose heights are the least and the greatest of these levels. Level k goes over the children
// of the tree of its sign: each moves its bound, and with it the value.
pub fn lent_level<'a>(
    file: HeldFile,
    k: usize,
    bounds: Bounds,
    carry: Carry,
    u: LentTree<'a>,
    v: LentTree<'a>,
) -> Found
    requires carried { SomeCarry (held_system file) k bounds.low bounds.high carry.pending carry.needs.now }
    requires k_nonzero { (0 < k) × (k ≤ file.model.levels) }
    requires heights { (u.height ≡ least_of (held_system file) k) × (v.height ≡ greatest_of (held_system file) k) }
    ensures { let s = held_system file.entry in
        let w = carry.entry in
        let ut = u.entry.gaps.now in
        let vt = v.entry.gaps.now in
        (ys : List ℕ) → Carried s k ys bounds.low bounds.high w.pending w.needs.now → Gives result (restricted_from s k ys bounds.low bounds.high ut vt) (queries_from s k ut vt) }
{
    level(&file, k, bounds, carry.pending, carry.needs, &u, &v)
}

// The same. The file and the trees are handed on by reference, and what is carried in its two parts, which fit registers: copying all of them takes longer than all
// else that a level with one child does.
#[cycle(levels)]
fn level<'a>(
    file: &HeldFile,
    k: usize,
    bounds: Bounds,
    pending: Pending,
    needs: &[u8; 64],
    u: &LentTree<'a>,
    v: &LentTree<'a>,
) -> Found
    requires carried { SomeCarry (held_system file.now) k bounds.low bounds.high pending needs.now }
    requires k_nonzero { (0 < k) × (k ≤ file.now.model.levels) }
    requires heights { (u.now.height ≡ least_of (held_system file.now) k) × (v.now.height ≡ greatest_of (held_system file.now) k) }
    ensures { let s = held_system file.now in
        let ut = u.now.gaps.now in
        let vt = v.now.gaps.now in
        (ys : List ℕ) → Carried s k ys bounds.low bounds.high pending needs.now → Gives result (restricted_from s k ys bounds.low bounds.high ut vt) (queries_from s k ut vt) }
{
    let below = k - 1;
    let greatest = file.is_greatest(below);
    if below == 0 {
        let own = if greatest { *v } else { *u };
        let carry = Carry { pending, needs };
        return innermost_level(*file, bounds, carry, greatest, own.gaps.len() + 1);
    }
    if greatest {
        over_children(file, below, true, bounds, pending, needs, u, v)
    } else {
        over_children(file, below, false, bounds, pending, needs, u, v)
    }
}

// A level of this sign with `below` levels below it. It is compiled once for each sign, so that no child asks for it.
#[cycle(levels)]
#[inline(always)]
fn over_children<'a>(
    file: &HeldFile,
    below: usize,
    greatest: bool,
    bounds: Bounds,
    pending: Pending,
    needs: &[u8; 64],
    u: &LentTree<'a>,
    v: &LentTree<'a>,
) -> Found
    requires carried { SomeCarry (held_system file.now) (suc below) bounds.low bounds.high pending needs.now }
    requires below_nonzero { (0 < below) × (below < file.now.model.levels) }
    requires sign_is { sign (held_system file.now) below ≡ greatest }
    requires heights { (u.now.height ≡ least_of (held_system file.now) (suc below)) × (v.now.height ≡ greatest_of (held_system file.now) (suc below)) }
    ensures { let s = held_system file.now in
        let k = suc below in
        let ut = u.now.gaps.now in
        let vt = v.now.gaps.now in
        (ys : List ℕ) → Carried s k ys bounds.low bounds.high pending needs.now → Gives result (restricted_from s k ys bounds.low bounds.high ut vt) (queries_from s k ut vt) }
{
    let own = if greatest { *v } else { *u };
    let mut set = bounds.start(greatest);
    let mut count: u64 = 0;
    let mut from = 0;
    // What is still needed below a child whose argument lowers it.
    let mut row = [0u8; 64];
    'children: loop {
        let child = own.child_from(from);
        let between = bounds.moved(greatest, set);
        let decision = decide(*file, below, set, between, Carry { pending, needs });
        let next = decision.pending;
        let still = if decision.lowered == 0 {
            needs
        } else {
            row = lower_needs(*file, below, set, decision.lowered, needs);
            &row
        };
        let found = if greatest {
            level(file, below, between, next, still, u, &child)
        } else {
            level(file, below, between, next, still, &child, v)
        };
        set = found.set;
        count += found.count;
        from += child.gaps.len();
        if from == own.gaps.len() {
            return Found { set, count };
        }
        // The gap between this child and the next.
        from += 1;
    }
}
