// The file of two models joined in one (request W6), put into a lent buffer straight from their files, which may be old or new. Definitions: specs/.
#![tactic(auto)]

ghost use Rattle.std.specs.Prelude.{◌≡◌, ◌++◌, map, ◌+◌, ◌*◌, ◌^◌, ◌≤◌, ◌<◌, length, drop};
ghost use Rattle.lists.specs.Below.{AllBelow};
ghost use Rattle.sets.specs.SideBySide.{moved_up};
ghost use Rattle.numbers.specs.Numbers.{word_bytes};
ghost use Rattle.model.specs.File.{file_length, line_records, encode};
ghost use Rattle.model.specs.Files.{laid_system};
ghost use Rattle.joined_file.specs.AtHand.{joined_laid, LaidAtHand};

use encoder::put_header;
use model::{LaidFile, Model, words_in};
use numbers::{put_number, u64_at};

// The kind and the threshold of each line of a file, in front of what the slice holds behind them.
fn put_line_records(s: &mut [u8], file: LaidFile)
    requires { 2 * file.model.lines ≤ length s.old }
    ensures { let system = laid_system file.entry in
        s.new ≡ line_records system.kinds system.thresholds ++ drop (2 * file.entry.model.lines) s.old }
{
    for i in 0..file.model.lines {
        s[2 * i] = file.kind(i);
        s[2 * i + 1] = file.threshold(i);
    }
}

// The words of a file, each moved up by so many lines, in front of what the slice holds behind them.
fn put_moved_words(s: &mut [u8], file: LaidFile, up: usize)
    requires all_below { AllBelow (2 ^ file.model.lines) (laid_system file).words }
    requires up_bound { (up < 64) × (up + file.model.lines ≤ 64) }
    requires levels_in_bounds { 8 * (file.model.lines * file.model.levels) ≤ length s.old }
    ensures { let m = file.entry.model in
        s.new ≡ word_bytes (map (moved_up up) (laid_system file.entry).words) ++ drop (8 * (m.lines * m.levels)) s.old }
{
    let first = words_in(file.bytes);
    for j in 0..file.model.lines * file.model.levels {
        let word = u64_at(file.bytes, first + 8 * j);
        put_number(&mut s[8 * j..], 8, word << up);
    }
}

// The kinds and thresholds of two files, those of the second behind those of the first.
fn put_both_lines(s: &mut [u8], first: LaidFile, second: LaidFile)
    requires { 2 * (first.model.lines + second.model.lines) ≤ length s.old }
    ensures { let both = joined_laid first.entry second.entry in
        s.new ≡ line_records both.kinds both.thresholds ++ drop (2 * both.lines) s.old }
{
    let behind = 2 * first.model.lines;
    put_line_records(s, first);
    put_line_records(&mut s[behind..], second);
}

// The words of two files, those of the second behind those of the first and moved up by the first's lines.
fn put_both_words(s: &mut [u8], first: LaidFile, second: LaidFile)
    requires at_hand { LaidAtHand first second }
    requires levels_in_bounds { 8 * ((first.model.lines + second.model.lines) * first.model.levels) ≤ length s.old }
    ensures { let both = joined_laid first.entry second.entry in
        s.new ≡ word_bytes both.words ++ drop (8 * (both.lines * both.levels)) s.old }
{
    let behind = 8 * (first.model.lines * first.model.levels);
    put_moved_words(s, first, 0);
    put_moved_words(&mut s[behind..], second, first.model.lines);
}

// The joined file: the header, then each section from its offset into the rest of the buffer. The signs are the first's.
pub fn put_joined(first: LaidFile, second: LaidFile, buffer: &mut [u8])
    requires at_hand { LaidAtHand first second }
    requires levels_in_bounds { file_length (first.model.lines + second.model.lines) first.model.levels ≤ length buffer.old }
    ensures { let both = joined_laid first.entry second.entry in
        buffer.new ≡ encode both ++ drop (file_length both.lines both.levels) buffer.old }
{
    let both = Model {
        lines: first.model.lines + second.model.lines,
        levels: first.model.levels,
    };
    let signs_at = Model::SIGNS_AT;
    let kinds_at = both.kinds_at();
    let words_at = both.words_at();
    put_header(buffer, both);
    buffer[signs_at..kinds_at].copy_from_slice(&first.bytes[signs_at..kinds_at]);
    put_both_lines(&mut buffer[kinds_at..], first, second);
    put_both_words(&mut buffer[words_at..], first, second);
}
