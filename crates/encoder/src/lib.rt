// The file of a system, put into a lent buffer.
#![tactic(auto)]

ghost use Rattle.std.specs.Prelude.{◌≡◌, ◌++◌, ◌*◌, ◌≤◌, length, drop};
ghost use Rattle.system.specs.System.{system_of};
ghost use Rattle.model.specs.File.{file_length, header_bytes, line_records, encode};

use model::Model;
use numbers::{put_number, put_words};

// The sixteen bytes of the header, in front of what the slice holds behind them.
pub fn put_header(s: &mut [u8], m: Model)
    requires lines_bound { (m.lines ≤ 64) × (m.levels ≤ 8) }
    requires in_bounds { 16 ≤ length s.old }
    ensures { s.new ≡ header_bytes m.lines m.levels ++ drop 16 s.old }
{
    put_number(s, 2, m.lines as u64);
    put_number(&mut s[2..], 2, m.levels as u64);
    put_number(&mut s[4..], 4, Model::SIGNS_AT as u64);
    put_number(&mut s[8..], 4, m.kinds_at() as u64);
    put_number(&mut s[12..], 4, m.words_at() as u64);
}

// The kind and the threshold of each line, in front of what the slice holds behind them.
fn put_lines(s: &mut [u8], kinds: &[u8], thresholds: &[u8])
    requires kinds_len_bound { (length kinds.now ≤ 64) × (length thresholds.now ≡ length kinds.now) }
    requires kinds_in_bounds { 2 * length kinds.now ≤ length s.old }
    ensures { s.new ≡ line_records kinds.now thresholds.now ++ drop (2 * length kinds.now) s.old }
{
    for (i, kind) in kinds.iter().enumerate() {
        s[2 * i] = *kind;
        s[2 * i + 1] = thresholds[i];
    }
}

// The header, then each section from its offset into the rest of the buffer.
pub fn put_file(
    m: Model,
    signs: &[u8],
    kinds: &[u8],
    thresholds: &[u8],
    words: &[u64],
    buffer: &mut [u8],
)
    requires lines_bound { (m.lines ≤ 64) × (m.levels ≤ 8) }
    requires signs_len { (length signs.now ≡ m.levels) × (length kinds.now ≡ m.lines) }
    requires thresholds_len { length thresholds.now ≡ m.lines }
    requires words_len { length words.now ≡ m.lines * m.levels }
    requires levels_in_bounds { file_length m.lines m.levels ≤ length buffer.old }
    ensures { buffer.new ≡ encode (system_of m.lines m.levels signs.now kinds.now thresholds.now words.now) ++ drop (file_length m.lines m.levels) buffer.old }
{
    let signs_at = Model::SIGNS_AT;
    let kinds_at = m.kinds_at();
    let words_at = m.words_at();
    put_header(buffer, m);
    buffer[signs_at..kinds_at].copy_from_slice(signs);
    put_lines(&mut buffer[kinds_at..], kinds, thresholds);
    put_words(&mut buffer[words_at..], words);
}
