// Texts and numbers as text, put into a lent buffer. Definitions: specs/.
#![tactic(auto)]

ghost use Rattle.std.specs.Prelude.{◌≡◌, ◌+◌, ◌≤◌, ◌<◌, length};
ghost use Rattle.text.specs.Text.{digit, digits, places, hex, decimal, number_line, refused_line, Puts};

// Puts a text at a place, and answers the place behind it.
pub fn put(out: &mut [u8], at: usize, text: &[u8]) -> usize
    requires { at + length text.now ≤ length out.old }
    ensures { Puts at text.now out.old out.new result }
{
    let end = at + text.len();
    out[at..end].copy_from_slice(text);
    end
}

// A digit in ASCII.
fn digit_of(n: u64) -> u8
    requires { n < 16 }
    ensures { result ≡ digit n }
{
    if n < 10 {
        b'0' + n as u8
    } else {
        b'a' + (n as u8 - 10)
    }
}

// The last k digits of x, put from the last to the first.
pub fn put_digits(out: &mut [u8], at: usize, base: u64, k: usize, x: u64) -> usize
    requires le_base { (1 ≤ base) × (base ≤ 16) }
    requires k_in_bounds { at + k ≤ length out.old }
    ensures { Puts at (digits base k x) out.old out.new result }
{
    let mut rest = x;
    for i in (0..k).rev() {
        out[at + i] = digit_of(rest % base);
        rest /= base;
    }
    at + k
}

// A set as 16 hexadecimal digits.
pub fn put_hex(out: &mut [u8], at: usize, x: u64) -> usize
    requires { at + 16 ≤ length out.old }
    ensures { Puts at (hex x) out.old out.new result }
{
    put_digits(out, at, 16, 16, x)
}

// How many decimal digits x has.
pub fn decimal_places(x: u64) -> usize
    ensures { (result ≡ places 19 x) × (result ≤ 20) }
{
    let mut rest = x;
    let mut n = 1;
    while 9 < rest {
        rest /= 10;
        n += 1;
    }
    n
}

// A decimal number with no zero in front.
pub fn put_decimal(out: &mut [u8], at: usize, x: u64) -> usize
    requires { at + 20 ≤ length out.old }
    ensures { Puts at (decimal x) out.old out.new result }
{
    put_digits(out, at, 10, decimal_places(x), x)
}

// A line: a word and a decimal number.
pub fn put_number_line(out: &mut [u8], at: usize, word: &[u8], x: u64) -> usize
    requires { at + length word.now + 21 ≤ length out.old }
    ensures { Puts at (number_line word.now x) out.old out.new result }
{
    let number = put(out, at, word);
    let end = put_decimal(out, number, x);
    put(out, end, b"\n")
}

// The line of a refusal, with its count where it has one.
pub fn put_refused(out: &mut [u8], at: usize, number: u64, count: u64) -> usize
    requires { at + 50 ≤ length out.old }
    ensures { Puts at (refused_line number count) out.old out.new result }
{
    let word = put(out, at, b"refused ");
    let behind = put_decimal(out, word, number);
    if count == 0 {
        put(out, behind, b"\n")
    } else {
        put_number_line(out, behind, b" ", count)
    }
}
