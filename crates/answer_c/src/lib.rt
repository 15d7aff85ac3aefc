// Each answer as the six words that a caller from C or Rust is given: number, set, count, length, lines, levels. Definitions: specs/.
#![tactic(auto)]

ghost use Rattle.std.specs.Prelude.{◌≡◌};
ghost use Rattle.answers.specs.Answer.{refusal, number_of};
ghost use Rattle.model.specs.Says.{reading_answer};
ghost use Rattle.writer.specs.Says.{written_answer};
ghost use Rattle.solver.specs.Says.{queried_answer, judged_answer, unjudged_answer};
ghost use Rattle.bench_page.specs.Says.{paged_answer};
ghost use Rattle.answer_c.specs.Words.{six_words};

use answers::Refusal;
use model::Model;
use routes::Found;
use solver::Unjudged;

fn refused(e: Refusal) -> [u64; 6]
    ensures { result ≡ six_words (refusal (number_of e)) }
{
    [u64::from(e), 0, 0, 0, 0, 0]
}

fn unjudged(e: Unjudged) -> [u64; 6]
    ensures { result ≡ six_words (unjudged_answer e) }
{
    match e {
        Unjudged::OverCeiling(forecast) => [u64::from(Refusal::Ceiling), 0, forecast, 0, 0, 0],
        Unjudged::Refused(e) => refused(e),
    }
}

pub fn reading(r: Result<Model, Refusal>) -> [u64; 6]
    ensures { result ≡ six_words (reading_answer r) }
{
    match r {
        Ok(m) => [0, 0, 0, 0, m.lines as u64, m.levels as u64],
        Err(e) => refused(e),
    }
}

pub fn written(r: Result<usize, Refusal>) -> [u64; 6]
    ensures { result ≡ six_words (written_answer r) }
{
    match r {
        Ok(made) => [0, 0, 0, made as u64, 0, 0],
        Err(e) => refused(e),
    }
}

pub fn queried(r: Result<u64, Refusal>) -> [u64; 6]
    ensures { result ≡ six_words (queried_answer r) }
{
    match r {
        Ok(set) => [0, set, 0, 0, 0, 0],
        Err(e) => refused(e),
    }
}

pub fn judged(r: Result<Found, Unjudged>) -> [u64; 6]
    ensures { result ≡ six_words (judged_answer r) }
{
    match r {
        Ok(found) => [0, found.set, found.count, 0, 0, 0],
        Err(e) => unjudged(e),
    }
}

pub fn paged(r: Result<usize, Unjudged>) -> [u64; 6]
    ensures { result ≡ six_words (paged_answer r) }
{
    match r {
        Ok(length) => [0, 0, 0, length as u64, 0, 0],
        Err(e) => unjudged(e),
    }
}
