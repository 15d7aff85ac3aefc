// The join program: joins the models of the two files that its arguments name, and writes the joined file to standard output. Where they are refused
// it writes two lines to standard error: the refusal, and which file it is about, or in what the two do not go together.
// Joining is `joiner`'s, which is proved; here files are only read, handed over and written.
#![tactic(auto)]

ghost use Rattle.streams.specs.Input.{InputSays};

use model::Model;
use std::env::{Env, FillError};
use std::fs;
use std::rt::Files;
use streams::say;

// One byte more than the longest file has is enough to tell that an input is too long.
const INPUT_SIZE: usize = Model::MAX_FILE + 1;

// The system opens no file by a name of so many bytes or more.
const NAME_SIZE: usize = 4096;

// Reads the file that argument i names into the buffer. Where it cannot be opened or read, it says so.
fn read_file<R: Env + Files>(
    rt: &R,
    i: usize,
    buffer: &mut [u8],
    errors: &impl Print,
) -> Option<usize>
    ensures { InputSays result buffer.new }
{
    let mut argument = [0u8; NAME_SIZE];
    // Of a longer name the front is there, which is too long to be opened as well.
    let length = rt.arg(i, &mut argument).unwrap_or(NAME_SIZE);
    let Ok(name) = str::from_utf8(&argument[..length]) else {
        say(&argument[..length], errors);
        say(b": the name is not UTF-8 text\n", errors);
        return None;
    };
    match fs::open(rt, name) {
        Ok(mut file) => streams::read_input(&mut file, name, buffer, errors),
        Err(e) => {
            streams::say_failed(name, &e, errors);
            None
        }
    }
}

// Says how many lines or levels the two files have.
fn say_counts(first: usize, what: &str, second: usize, errors: &impl Print) {
    let _ = println!(errors; "both files: {first} {what} in the first, {second} in the second");
}

// Says the first level whose signs differ, and answers whether there is one.
fn say_unlike(first: &[u8], second: &[u8], errors: &impl Print) -> bool {
    for (k, (a, b)) in first.iter().zip(second).enumerate() {
        if *a != *b {
            let (one, other) = if *a == 0 {
                ("least", "greatest")
            } else {
                ("greatest", "least")
            };
            let level = k + 1;
            let _ = println!(errors;
                "both files: level {level} is {one} in the first, {other} in the second"
            );
            return true;
        }
    }
    false
}

// Says what the refusal of two files is about, in the order in which joining looks at them.
fn say_where(first: &[u8], second: &[u8], errors: &impl Print) {
    let Ok(one) = checker::check(first) else {
        return say(b"the first file\n", errors);
    };
    let Ok(other) = checker::check(second) else {
        return say(b"the second file\n", errors);
    };
    let m = one.model;
    let k = other.model;
    if m.levels != k.levels {
        return say_counts(m.levels, "levels", k.levels, errors);
    }
    let signs_at = Model::SIGNS_AT;
    let kinds_at = m.kinds_at();
    if !say_unlike(
        &first[signs_at..kinds_at],
        &second[signs_at..kinds_at],
        errors,
    ) {
        say_counts(m.lines, "lines", k.lines, errors);
    }
}

// Joins two files, and writes the joined file, or says why there is none.
fn join_files(first: &[u8], second: &[u8], output: &impl Print, errors: &impl Print) {
    let mut out = [0u8; Model::MAX_FILE];
    match joiner::join(first, second, &mut out) {
        Ok(length) => streams::write_output(&out[..length], output, errors),
        Err(e) => {
            let made = text::put_refused(&mut out, 0, u64::from(e), 0);
            say(&out[..made], errors);
            say_where(first, second, errors);
        }
    }
}

// Whether the program was given an argument i. With no room for it, one that is there is too long.
fn has_argument(rt: &impl Env, i: usize) -> bool {
    !matches!(rt.arg(i, &mut []), Err(FillError::NotPresent))
}

fn main(rt: HostRuntime) {
    let errors = rt.stderr();
    if !has_argument(&rt, 2) || has_argument(&rt, 3) {
        return say(b"usage: join FIRST SECOND >OUT\n", &errors);
    }
    let mut first = [0u8; INPUT_SIZE];
    let Some(first_got) = read_file(&rt, 1, &mut first, &errors) else {
        return;
    };
    let mut second = [0u8; INPUT_SIZE];
    let Some(second_got) = read_file(&rt, 2, &mut second, &errors) else {
        return;
    };
    join_files(
        &first[..first_got],
        &second[..second_got],
        &rt.stdout(),
        &errors,
    );
}
