// The set of one query, line by line: no argument stays for a further query, so nothing is carried.
#![tactic(auto)]

ghost use Rattle.std.specs.Prelude.{◌≡◌, ◌+◌, ◌*◌, ◌^◌, ◌≤◌, ◌<◌, leb, length, take};
ghost use Rattle.sets.specs.Set.{intersection};
ghost use Rattle.system.specs.Query as spec;
ghost use Rattle.numbers.specs.Numbers.{words_from};
ghost use Rattle.model.specs.Files.{held_system};

use model::{HeldFile, Kind, words_in};
use numbers::u64_at;

// The "or" of the operands that a line's words select. The first word with a set operand decides.
fn any_operand(words: &[u8], xs: &[u64]) -> bool
    requires { 8 * length xs.now ≤ length words.now }
    ensures { result ≡ spec.any (spec.operands (words_from (length xs.now) words.now) xs.now) }
{
    for (k, x) in xs.iter().enumerate() {
        if u64_at(words, 8 * k) & *x != 0 {
            return true;
        }
    }
    false
}

// The "and" of the same. The first word with an operand that is not set decides.
fn all_operands(words: &[u8], xs: &[u64]) -> bool
    requires { 8 * length xs.now ≤ length words.now }
    ensures { result ≡ spec.all (spec.operands (words_from (length xs.now) words.now) xs.now) }
{
    for (k, x) in xs.iter().enumerate() {
        if !sets::within(u64_at(words, 8 * k), *x) {
            return false;
        }
    }
    true
}

// Whether at least t of them are set: what is needed falls from level to level, and nothing more to need decides.
fn enough_operands(words: &[u8], xs: &[u64], t: u8) -> bool
    requires { 8 * length xs.now ≤ length words.now }
    ensures { result ≡ leb t (spec.count_set (spec.operands (words_from (length xs.now) words.now) xs.now)) }
{
    let mut need = t as u32;
    for (k, x) in xs.iter().enumerate() {
        let count = sets::member_count_at_once(u64_at(words, 8 * k) & *x);
        if need <= count {
            return true;
        }
        need -= count;
    }
    need == 0
}

// A line's value by its kind, its threshold and its words.
fn line_value(kind: u8, t: u8, words: &[u8], xs: &[u64]) -> bool
    requires { 8 * length xs.now ≤ length words.now }
    ensures { result ≡ spec.value_of kind t (spec.operands (words_from (length xs.now) words.now) xs.now) }
{
    match Kind::from(kind) {
        Kind::Any => any_operand(words, xs),
        Kind::All => all_operands(words, xs),
        Kind::Vote => enough_operands(words, xs, t),
    }
}

// Those of some lines that are in the query's set: no other line is worked out. They are gone over from the lowest on.
pub fn evaluate_lines(file: HeldFile, xs: &[u64], lines: u64) -> u64
    requires { (file.model.levels ≤ length xs.now) × (lines < 2 ^ file.model.lines) }
    ensures { result ≡ intersection lines (spec.query (held_system file.entry) (take file.entry.model.levels xs.now)) }
{
    let xs = &xs[..file.model.levels];
    let at = words_in(file.bytes);
    let line = 8 * file.model.levels;
    let laid = file.laid();
    let mut rest = lines;
    let mut found: u64 = 0;
    while rest != 0 {
        let i = rest.trailing_zeros() as usize;
        // The lines after the lowest; `rest ^ others` is the lowest alone.
        let others = rest & (rest - 1);
        let words = &file.bytes[at + line * i..];
        if line_value(laid.kind(i), laid.threshold(i), words, xs) {
            found |= rest ^ others;
        }
        rest = others;
    }
    found
}

// The query's set for a file, at the arguments in the first places of xs.
pub fn evaluate(file: HeldFile, xs: &[u64]) -> u64
    requires { file.model.levels ≤ length xs.now }
    ensures { result ≡ spec.query (held_system file.entry) (take file.entry.model.levels xs.now) }
{
    evaluate_lines(file, xs, sets::full_set(file.model.lines))
}
