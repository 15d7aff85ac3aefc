// Runs those of document 01's samples that are not proved; the others are the table of the crate `samples`.
// Its stored output is what document 01 says of them, what requests W3, W4 and W8 say of the shares, the votes and the forecast, and P's bench page.
#![tactic(auto)]

use answers::Refusal;
use model::Model;
use routes::Found;
use solver::Unjudged;
use std::io;

// Model P's file.
const P: [u8; 52] = [
    2, 0, 2, 0, 16, 0, 0, 0, 18, 0, 0, 0, 20, 0, 0, 0, 0, 1, 1, 0, 2, 0, 0, 0, 0, 0, 0, 0, 0, 0, 0,
    0, 0, 0, 0, 0, 0, 0, 0, 0, 0, 0, 0, 0, 1, 0, 0, 0, 0, 0, 0, 0,
];

fn show_number(out: &impl Print, name: &str, number: u64) -> io::Result<()> {
    println!(out; "{name}{number}")
}

fn show_pair(out: &impl Print, name: &str, first: u64, second: u64) -> io::Result<()> {
    println!(out; "{name}{first} {second}")
}

fn show_refusal(out: &impl Print, name: &str, e: Refusal) -> io::Result<()> {
    let number = u64::from(e);
    println!(out; "{name}refused {number}")
}

// A set and its count, or a refusal, with its count if it has one.
fn show_judged(out: &impl Print, name: &str, judged: Result<Found, Unjudged>) -> io::Result<()> {
    match judged {
        Ok(found) => show_pair(out, name, found.set, found.count),
        Err(Unjudged::OverCeiling(forecast)) => {
            let number = u64::from(Refusal::Ceiling);
            println!(out; "{name}refused {number} {forecast}")
        }
        Err(Unjudged::Refused(e)) => show_refusal(out, name, e),
    }
}

// The lines and the levels, or a refusal.
fn show_counts(out: &impl Print, name: &str, counts: Result<Model, Refusal>) -> io::Result<()> {
    match counts {
        Ok(m) => show_pair(out, name, m.lines as u64, m.levels as u64),
        Err(e) => show_refusal(out, name, e),
    }
}

// The counts that checking a file gives.
fn show_checked(out: &impl Print, name: &str, file: &[u8]) -> io::Result<()> {
    show_counts(out, name, checker::check(file).map(|held| held.model))
}

// A length, or a refusal.
fn show_written(out: &impl Print, name: &str, length: Result<usize, Refusal>) -> io::Result<()> {
    match length {
        Ok(bytes) => show_number(out, name, bytes as u64),
        Err(e) => show_refusal(out, name, e),
    }
}

// A file of 64 lines and 8 levels, then with 65 lines in it, then with 9 levels too.
fn show_sizes(out: &impl Print) -> io::Result<()> {
    let mut file = [0u8; Model::MAX_FILE];
    let _ = writer::write(
        64,
        8,
        &[0u8; 8],
        &[0u8; 64],
        &[0u8; 64],
        &[1u64; 512],
        &mut file,
    );
    show_checked(out, "64 lines, 8 levels: ", &file)?;
    file[0] = 65;
    show_checked(out, "65 lines: ", &file)?;
    file[2] = 9;
    show_checked(out, "65 lines, 9 levels: ", &file)
}

// P read and written: its new file is two bytes longer, and stands for the same model.
fn show_new_layout(out: &impl Print) -> io::Result<()> {
    let mut signs = [9u8; 2];
    let mut kinds = [9u8; 2];
    let mut thresholds = [9u8; 2];
    let mut words = [9u64; 4];
    let read = reader::read(&P, &mut signs, &mut kinds, &mut thresholds, &mut words);
    show_counts(out, "P: ", read)?;
    show_pair(
        out,
        "P, thresholds: ",
        u64::from(thresholds[0]),
        u64::from(thresholds[1]),
    )?;
    let mut file = [0u8; 54];
    show_written(
        out,
        "P, new file: ",
        writer::write(2, 2, &signs, &kinds, &thresholds, &words, &mut file),
    )?;
    show_judged(
        out,
        "P, new file, ceiling 3: ",
        solver::solve_plain(&file, 0, 3, 3),
    )
}

// Three pyrometers of which a vote needs so many, two reading hot.
fn show_votes(out: &impl Print, name: &str, t: u8) -> io::Result<()> {
    let mut file = [0u8; 90];
    let written = writer::write(
        4,
        2,
        &[0u8, 1],
        &[2u8, 1, 0, 0],
        &[t, 0, 0, 0],
        &[14u64, 0, 0, 0, 0, 4, 8, 0],
        &mut file,
    );
    match written {
        Ok(_) => show_judged(out, name, solver::solve_built(&file, 0, 15, 16)),
        Err(e) => show_refusal(out, name, e),
    }
}

// The bench page of P, three rows.
fn show_page(out: &impl Print) -> io::Result<()> {
    let mut page = [0u8; 123];
    let _ = bench_page::make_page(&P, &mut page);
    out.write_all(&page)
}

// Each sample in its turn, until one cannot be written.
fn show_all(out: &impl Print) -> io::Result<()> {
    show_judged(out, "P, ceiling 3: ", solver::solve_plain(&P, 0, 3, 3))?;
    show_judged(out, "P, ceiling 2: ", solver::solve_plain(&P, 0, 3, 2))?;
    show_judged(
        out,
        "P, A = 1, B = 2, plain: ",
        solver::solve_plain(&P, 1, 2, 3),
    )?;
    show_judged(
        out,
        "P, A = 1, B = 2, built-in trees: ",
        solver::solve_built(&P, 1, 2, 0),
    )?;
    show_judged(
        out,
        "P, built-in trees, ceiling 4: ",
        solver::solve_built(&P, 0, 3, 4),
    )?;
    show_judged(
        out,
        "P, built-in trees, ceiling 3: ",
        solver::solve_built(&P, 0, 3, 3),
    )?;
    show_sizes(out)?;
    show_checked(out, "51 bytes of P: ", &P[..51])?;
    show_checked(out, "15 bytes of P: ", &P[..15])?;
    let gaps = [1u8; 1024];
    show_judged(
        out,
        "P, 1023 gaps: ",
        solver::solve_lent(&P, 0, 3, &gaps[..1023], &[]),
    )?;
    show_judged(
        out,
        "P, 1024 gaps: ",
        solver::solve_lent(&P, 0, 3, &gaps, &[]),
    )?;
    show_number(out, "share of 1 in 16: ", share::share_of(1, 16))?;
    show_number(out, "share of 3 in 16: ", share::share_of(3, 16))?;
    show_new_layout(out)?;
    show_votes(out, "votes of none: ", 0)?;
    show_votes(out, "votes of one: ", 1)?;
    show_votes(out, "votes of two: ", 2)?;
    show_votes(out, "votes of three: ", 3)?;
    show_votes(out, "votes of four: ", 4)?;
    show_page(out)
}

fn main(rt: HostRuntime) {
    if let Err(e) = show_all(&rt.stdout()) {
        streams::say_failed("standard output", &e, &rt.stderr());
    }
}
