// Joining two models' files in one, in a lent buffer (request W6). Definitions: specs/.
#![tactic(auto)]

ghost use Rattle.joiner.specs.Says.{JoinSays};

use answers::Refusal;
use joined_file::put_joined;
use model::Model;

// Joins the models of two files in one file: the lines of the second follow those of the first. A refusal changes nothing.
pub fn join(first: &[u8], second: &[u8], buffer: &mut [u8]) -> Result<usize, Refusal>
    ensures { JoinSays first.now second.now buffer.old result buffer.new }
{
    let one = checker::check(first)?;
    let other = checker::check(second)?;
    let m = one.model;
    let k = other.model;
    let signs_at = Model::SIGNS_AT;
    let kinds_at = m.kinds_at();
    if m.levels != k.levels || one.bytes[signs_at..kinds_at] != other.bytes[signs_at..kinds_at] {
        return Err(Refusal::LevelsDiffer);
    }
    let both = Model {
        lines: m.lines + k.lines,
        levels: m.levels,
    };
    if Model::MAX_LINES < both.lines {
        return Err(Refusal::Lines);
    }
    let length = both.file_length();
    if buffer.len() < length {
        return Err(Refusal::Room);
    }
    put_joined(one.laid(), other.laid(), buffer);
    Ok(length)
}
