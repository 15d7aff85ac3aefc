// The operations for C, C++ and Rust to call: each fills six words with its answer (include/solver.h).
#![tactic(auto)]

ghost use Rattle.std.specs.Prelude.{◌≡◌, length};
ghost use Rattle.system.specs.System.{system_of};
ghost use Rattle.reader.specs.Says.{read_answer, ReadLeaves};
ghost use Rattle.writer.specs.Says.{write_answer, WriteLeaves};
ghost use Rattle.joiner.specs.Says.{join_answer, JoinLeaves};
ghost use Rattle.solver.specs.Says.{query_answer, plain_answer, built_answer, lent_answer};
ghost use Rattle.one_sided_solver.specs.Says.{one_sided_answer, OneSidedLeaves};
ghost use Rattle.bench_page.specs.Says.{page_answer, PageLeaves};
ghost use Rattle.answer_c.specs.Words.{six_words};

#[unsafe(no_mangle)]
pub extern "C" fn solver_read(
    file: &[u8],
    signs: &mut [u8],
    kinds: &mut [u8],
    thresholds: &mut [u8],
    words: &mut [u64],
    answer: &mut [u64; 6],
)
    ensures answer_after { answer.new ≡ six_words (read_answer file.now (length signs.old) (length kinds.old) (length thresholds.old) (length words.old)) }
    ensures read_leaves { ReadLeaves file.now signs.old kinds.old thresholds.old words.old
        signs.new kinds.new thresholds.new words.new }
{
    *answer = answer_c::reading(reader::read(file, signs, kinds, thresholds, words));
}

#[unsafe(no_mangle)]
pub extern "C" fn solver_write(
    n: usize,
    d: usize,
    signs: &[u8],
    kinds: &[u8],
    thresholds: &[u8],
    words: &[u64],
    buffer: &mut [u8],
    answer: &mut [u64; 6],
)
    ensures answer_after { answer.new ≡ six_words (write_answer (system_of n d signs.now kinds.now thresholds.now words.now) (length buffer.old)) }
    ensures write_leaves { WriteLeaves (system_of n d signs.now kinds.now thresholds.now words.now) buffer.old buffer.new }
{
    *answer = answer_c::written(writer::write(n, d, signs, kinds, thresholds, words, buffer));
}

#[unsafe(no_mangle)]
pub extern "C" fn solver_query(file: &[u8], arguments: &[u64], answer: &mut [u64; 6])
    ensures { answer.new ≡ six_words (query_answer file.now arguments.now) }
{
    *answer = answer_c::queried(solver::query(file, arguments));
}

#[unsafe(no_mangle)]
pub extern "C" fn solver_plain(file: &[u8], a: u64, b: u64, ceiling: u64, answer: &mut [u64; 6])
    ensures { answer.new ≡ six_words (plain_answer file.now a b ceiling) }
{
    *answer = answer_c::judged(solver::solve_plain(file, a, b, ceiling));
}

#[unsafe(no_mangle)]
pub extern "C" fn solver_built(file: &[u8], a: u64, b: u64, ceiling: u64, answer: &mut [u64; 6])
    ensures { answer.new ≡ six_words (built_answer file.now a b ceiling) }
{
    *answer = answer_c::judged(solver::solve_built(file, a, b, ceiling));
}

#[unsafe(no_mangle)]
pub extern "C" fn solver_lent(
    file: &[u8],
    a: u64,
    b: u64,
    u: &[u8],
    v: &[u8],
    answer: &mut [u64; 6],
)
    ensures { answer.new ≡ six_words (lent_answer file.now a b u.now v.now) }
{
    *answer = answer_c::judged(solver::solve_lent(file, a, b, u, v));
}

#[unsafe(no_mangle)]
pub extern "C" fn solver_one_sided(file: &[u8], v: &[u8], words: &mut [u64], answer: &mut [u64; 6])
    ensures answer_after { answer.new ≡ six_words (one_sided_answer file.now v.now (length words.old)) }
    ensures one_sided_leaves { OneSidedLeaves file.now v.now words.old words.new }
{
    *answer = answer_c::judged(one_sided_solver::solve_one_sided(file, v, words));
}

#[unsafe(no_mangle)]
pub extern "C" fn solver_page(file: &[u8], buffer: &mut [u8], answer: &mut [u64; 6])
    ensures answer_after { answer.new ≡ six_words (page_answer file.now (length buffer.old)) }
    ensures page_leaves { PageLeaves file.now buffer.old buffer.new }
{
    *answer = answer_c::paged(bench_page::make_page(file, buffer));
}

#[unsafe(no_mangle)]
pub extern "C" fn solver_join(first: &[u8], second: &[u8], buffer: &mut [u8], answer: &mut [u64; 6])
    ensures answer_after { answer.new ≡ six_words (join_answer first.now second.now (length buffer.old)) }
    ensures join_leaves { JoinLeaves first.now second.now buffer.old buffer.new }
{
    *answer = answer_c::written(joiner::join(first, second, buffer));
}
