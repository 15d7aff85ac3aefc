// Little-endian numbers in bytes, and words of eight bytes each. Definitions: specs/.
#![tactic(auto)]

ghost use Rattle.std.specs.Prelude.{◌≡◌, ◌++◌, ◌+◌, ◌*◌, ◌≤◌, length, take, drop};
ghost use Rattle.numbers.specs.Numbers.{number_at, words_from, bytes_of, word_bytes};

// The N bytes from an offset on.
fn bytes_at<const N: usize>(s: &[u8], at: usize) -> [u8; N]
    requires { at + N ≤ length s.now }
    ensures { result ≡ take N (drop at s.now) }
{
    let mut bytes = [0u8; N];
    bytes.copy_from_slice(&s[at..at + N]);
    bytes
}

pub fn u16_at(s: &[u8], at: usize) -> u16
    requires { at + 2 ≤ length s.now }
    ensures { result ≡ number_at s.now at 2 }
{
    u16::from_le_bytes(bytes_at(s, at))
}

pub fn u32_at(s: &[u8], at: usize) -> u32
    requires { at + 4 ≤ length s.now }
    ensures { result ≡ number_at s.now at 4 }
{
    u32::from_le_bytes(bytes_at(s, at))
}

pub fn u64_at(s: &[u8], at: usize) -> u64
    requires { at + 8 ≤ length s.now }
    ensures { result ≡ number_at s.now at 8 }
{
    u64::from_le_bytes(bytes_at(s, at))
}

// The k lowest bytes of x, in front of what the slice holds behind them.
pub fn put_number(s: &mut [u8], k: usize, x: u64)
    requires { k ≤ length s.old }
    ensures { s.new ≡ bytes_of k x ++ drop k s.old }
{
    let mut rest = x;
    for i in 0..k {
        s[i] = (rest % 256) as u8;
        rest = rest / 256;
    }
}

// The first k words of the bytes, in front of what the slice holds behind them.
pub fn read_words(s: &[u8], k: usize, words: &mut [u64])
    requires { (8 * k ≤ length s.now) × (k ≤ length words.old) }
    ensures { words.new ≡ words_from k s.now ++ drop k words.old }
{
    for i in 0..k {
        words[i] = u64_at(s, 8 * i);
    }
}

// The eight bytes of each word, in front of what the slice holds behind them.
pub fn put_words(s: &mut [u8], words: &[u64])
    requires { 8 * length words.now ≤ length s.old }
    ensures { s.new ≡ word_bytes words.now ++ drop (8 * length words.now) s.old }
{
    for (i, word) in words.iter().enumerate() {
        put_number(&mut s[8 * i..], 8, *word);
    }
}
