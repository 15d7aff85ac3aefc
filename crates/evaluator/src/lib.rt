// The set of a query, level by level from the outermost inwards: what the arguments known so far decide is carried on, so that each argument is
// looked at once, and by those lines alone that are still undecided. Beside it stands what each line that is not set still needs: one operand that is
// set or, for a vote, several. A level below gets it as it is, unless some votes need less by then: only these are counted. Definitions: specs/.
#![tactic(auto)]

ghost use Rattle.std.specs.Prelude.{◌≡◌, ◌&&◌, List, [], ◌∷◌, ℕ, suc, ◌+◌, ◌*◌, ◌<◌, ◌^◌, ltb};
ghost use Rattle.sets.specs.Set.{is_member, members, bounded_step};
ghost use Rattle.system.specs.Query.{query};
ghost use Rattle.model.specs.File.{words_in};
ghost use Rattle.model.specs.Files.{held_system};
ghost use Rattle.evaluator.specs.ByLevels.{Decided, Needs, Carried, Lowered, Next, initial_set, selects, is_met, is_lowered, line_needs};

mod sides;

use model::{HeldFile, Kind, is_old, line_bytes, words_in};
use numbers::u64_at;

// What the arguments of the outer levels decide.
#[derive(Clone, Copy, Debug, PartialEq, Eq)]
pub struct Pending {
    // The query's set, if the levels below decide nothing more: an undecided line has the value that it has without operands.
    pub set: u64,
    pub undecided: u64,
}

// Two sets between which a level's value is looked for.
#[derive(Clone, Copy, Debug, PartialEq, Eq)]
pub struct Bounds {
    pub low: u64,
    pub high: u64,
}

// What the arguments of the outer levels come to: what they decide, and what each line that is not set still needs.
#[derive(Clone, Copy, Debug, PartialEq, Eq)]
pub struct Carry<'a> {
    pub pending: Pending,
    pub needs: &'a [u8; 64],
}

// What one argument more decides.
#[derive(Clone, Copy, Debug, PartialEq, Eq)]
pub struct Decision {
    pub pending: Pending,
    // The undecided lines that need less than before it, and still something: votes.
    pub lowered: u64,
}

// Of some lines, those that have all that they need, and those that have a part of it.
#[derive(Clone, Copy)]
struct Hits {
    met: u64,
    lowered: u64,
}

// The set of the lines that are set without operands: those of which all operands must be set. The last line is the highest digit. The place of the kind is
// carried on, not made from the line anew: the layout is asked once. The byte is asked, 1 being all: a test of its `Kind` was tried, and two goals of
// its proof stayed open.
fn initial_set(file: HeldFile) -> u64
    ensures { result ≡ initial_set (held_system file.entry) }
{
    let m = file.model;
    let first = m.kinds_at();
    let step = line_bytes(file.bytes, m);
    let mut at = first + step * m.lines;
    let mut set: u64 = 0;
    for i in (0..m.lines).rev() {
        at -= step;
        set = 2 * set + (file.bytes[at] == 1) as u64;
    }
    set
}

// Where the words for level k + 1 begin; a line's stand 8 bytes a level behind those of the line before it.
fn level_words(file: HeldFile, k: usize) -> usize
    requires { k < file.model.levels }
    ensures { result ≡ words_in file.entry.bytes.now + 8 * k }
{
    words_in(file.bytes) + 8 * k
}

// Those of some lines that select, at level k + 1, a line of x. They are gone over from the lowest on.
#[inline(always)]
fn selecting(file: HeldFile, k: usize, lines: u64, x: u64) -> u64
    requires { (k < file.model.levels) × (lines < 2 ^ file.model.lines) }
    ensures { (i : ℕ) → is_member result i ≡ (is_member lines i && selects (held_system file.entry) k x i) }
{
    let at = level_words(file, k);
    let line = 8 * file.model.levels;
    let mut rest = lines;
    let mut found: u64 = 0;
    while rest != 0 {
        let i = rest.trailing_zeros() as usize;
        // The lines after the lowest; `rest ^ others` is the lowest alone.
        let others = rest & (rest - 1);
        if u64_at(file.bytes, at + line * i) & x != 0 {
            found |= rest ^ others;
        }
        rest = others;
    }
    found
}

// Of some lines that are not set, those whose operands at level k + 1 in x are all that they need, and those for which they are a part of it. For most lines one
// is enough, so that few are counted.
#[inline(always)]
fn meeting(file: HeldFile, k: usize, lines: u64, x: u64, needs: &[u8; 64]) -> Hits
    requires { (k < file.model.levels) × (lines < 2 ^ file.model.lines) }
    ensures met { (i : ℕ) → is_member result.met i ≡ (is_member lines i && is_met (held_system file.entry) k x needs.now i) }
    ensures lowered { (i : ℕ) → is_member result.lowered i ≡ (is_member lines i && is_lowered (held_system file.entry) k x needs.now i) }
{
    let at = level_words(file, k);
    let line = 8 * file.model.levels;
    let mut rest = lines;
    let mut hit: u64 = 0;
    let mut lowered: u64 = 0;
    while rest != 0 {
        let i = rest.trailing_zeros() as usize;
        let others = rest & (rest - 1);
        let operands = u64_at(file.bytes, at + line * i) & x;
        let one = if operands != 0 { rest ^ others } else { 0 };
        hit |= one;
        let need = needs[i];
        if 1 < need && sets::member_count(operands) < need as u32 {
            lowered |= one;
        }
        rest = others;
    }
    Hits {
        met: hit ^ lowered,
        lowered,
    }
}

// With no argument known, every line is undecided.
pub fn begin(file: HeldFile) -> Pending
    ensures { (a b : ℕ) → Decided (held_system file.entry) file.entry.model.levels [] a b result }
{
    Pending {
        set: initial_set(file),
        undecided: sets::full_set(file.model.lines),
    }
}

// A vote needs its threshold, and every other line one operand.
fn line_need(file: HeldFile, i: usize) -> u8
    requires { i < file.model.lines }
    ensures { result ≡ line_needs (held_system file.entry) i }
{
    let laid = file.laid();
    match Kind::from(laid.kind(i)) {
        Kind::Any | Kind::All => 1,
        Kind::Vote => laid.threshold(i),
    }
}

// What the lines need while no argument is known. An old file has no votes.
pub fn initial_needs(file: HeldFile) -> [u8; 64]
    ensures { (a b : ℕ) → Needs (held_system file.entry) file.entry.model.levels [] a b result }
{
    let mut needs = [1u8; 64];
    if is_old(file.bytes, file.model) {
        return needs;
    }
    for i in 0..file.model.lines {
        needs[i] = line_need(file, i);
    }
    needs
}

// What the argument x of level k + 1 decides beside those above it, of the lines that a step between the bounds can change: an undecided line
// that is not set changes by as many operands that are set as it needs, and one that is set by an operand that is not.
#[inline(always)]
pub fn decide(file: HeldFile, k: usize, x: u64, bounds: Bounds, carry: Carry) -> Decision
    requires { (k < file.model.levels) × (carry.pending.undecided < 2 ^ file.model.lines) }
    ensures few { result.lowered < 2 ^ file.entry.model.lines }
    ensures next { let s = held_system file.entry in
        let w = carry.entry in
        (ys : List ℕ) → Carried s (suc k) ys bounds.low bounds.high w.pending w.needs.now → Next s k x ys bounds.low bounds.high w.needs.now result }
{
    let w = carry.pending;
    let asked = w.undecided & (bounds.high & (bounds.high ^ bounds.low));
    // Often the levels above leave nothing to ask: then no line is looked at.
    if asked == 0 {
        return Decision {
            pending: Pending { undecided: 0, ..w },
            lowered: 0,
        };
    }
    let missed = selecting(file, k, asked & w.set, !x);
    let hits = meeting(file, k, asked & (asked ^ w.set), x, carry.needs);
    let decided = hits.met | missed;
    Decision {
        pending: Pending {
            set: w.set ^ decided,
            undecided: asked ^ decided,
        },
        lowered: hits.lowered,
    }
}

// What the lines need once the argument x of level k + 1 is known too: the given lines less by their operands that are in x, the others the same.
pub fn lower_needs(file: HeldFile, k: usize, x: u64, lines: u64, needs: &[u8; 64]) -> [u8; 64]
    requires { (k < file.model.levels) × (lines < 2 ^ file.model.lines) }
    ensures { Lowered (held_system file.entry) k x lines needs.now result }
{
    let at = level_words(file, k);
    let line = 8 * file.model.levels;
    let mut row = *needs;
    let mut rest = lines;
    while rest != 0 {
        let i = rest.trailing_zeros() as usize;
        let count = sets::member_count(u64_at(file.bytes, at + line * i) & x) as u8;
        row[i] = row[i].saturating_sub(count);
        rest &= rest - 1;
    }
    row
}

// The bounded step towards the query's set at the argument x of level 1: with it, every argument is known.
#[inline(always)]
pub fn settle(file: HeldFile, x: u64, bounds: Bounds, carry: Carry) -> u64
    requires { (0 < file.model.levels) × (carry.pending.undecided < 2 ^ file.model.lines) }
    ensures { let s = held_system file.entry in
        let w = carry.entry in
        (ys : List ℕ) → Carried s 1 ys bounds.low bounds.high w.pending w.needs.now → result ≡ bounded_step bounds.low bounds.high (query s (x ∷ ys)) }
{
    let decision = decide(file, 0, x, bounds, carry);
    bounds.low | (bounds.high & decision.pending.set)
}
