// Searches that checking, writing and one query share.
ghost use Rattle.std.specs.Prelude.{◌≡◌, ◌≤◌, ltb};
ghost use Rattle.model.specs.Checks.{some, strays};
ghost use Rattle.model.specs.Checks as spec;

use super::kind::Kind;

// Whether one of the bytes is over the highest that there may be.
pub fn one_over(s: &[u8], highest: u8) -> bool
    ensures { result ≡ some (ltb highest) s.now }
{
    s.iter().any(|byte| highest < *byte)
}

// Whether one of the sets has a line of n or more.
pub fn one_strays(words: &[u64], n: usize) -> bool
    requires { n ≤ 64 }
    ensures { result ≡ some (strays n) words.now }
{
    let all = sets::full_set(n);
    words.iter().any(|word| !sets::within(*word, all))
}

// Whether a line of this kind, with so many operands, may not have the threshold t.
pub fn misfits(kind: u8, t: u8, count: usize) -> bool
    ensures { result ≡ spec.misfits kind t count }
{
    match Kind::from(kind) {
        Kind::Any | Kind::All => t != 0,
        Kind::Vote => t == 0 || count < t as usize,
    }
}
