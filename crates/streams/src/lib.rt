// What the programs share: an input is read whole and an output written whole, or standard error is told which could not be, and why.
// The programs end with status 0 in any case, so this is how whoever runs them learns of it. Which bytes a file or a standard stream
// gives or takes is tested; no contract can say it. `errors` is standard error throughout.
#![tactic(auto)]

ghost use Rattle.std.specs.Prelude.{◌≤◌, length};
ghost use Rattle.streams.specs.Input.{InputIsOf, InputSays};

use std::io;
use std::io::{Cursor, Read, Write};

// Reads an input until it ends or the buffer is full, and answers how many bytes then stand at the buffer's front: all of the input, or as much of
// it as fits. Where a read fails, which is no end of the input, it says so under the input's name and answers nothing.
pub fn read_input<R: Read>(
    input: &mut R,
    name: &str,
    buffer: &mut [u8],
    errors: &impl Print,
) -> Option<usize>
    ensures says { InputSays result buffer.new }
    ensures bytes { InputIsOf result buffer.new (R.remaining input.old) (R.remaining input.new) }
{
    let mut done = 0;
    while done < buffer.len() {
        match input.read(&mut buffer[done..]) {
            Ok(0) => return Some(done),
            Ok(more) => done += more,
            Err(e) => {
                say_failed(name, &e, errors);
                return None;
            }
        }
    }
    Some(done)
}

// Writes all of an output to standard output, or says that it could not.
pub fn write_output(output: &[u8], to: &impl Print, errors: &impl Print) {
    if let Err(e) = to.write_all(output) {
        say_failed("standard output", &e, errors);
    }
}

// Reads standard input into `input`, lets `report` make the output for it, and writes that to standard output. Where a stream fails, it says so; after a
// read that fails nothing is written.
pub fn answer<F: Fn(&[u8], &mut [u8]) -> usize>(
    rt: &HostRuntime,
    input: &mut [u8],
    output: &mut [u8],
    report: F,
)
    requires callable { F.IsAlwaysCallable report }
    requires fits { (read : _) (out : _) (made : _) (out' : _) → F.post report read out made out' → made ≤ length out'.now }
{
    let errors = rt.stderr();
    let Some(got) = read_input(&mut rt.stdin(), "standard input", input, &errors) else {
        return;
    };
    let made = report(&input[..got], output);
    write_output(&output[..made], &rt.stdout(), &errors);
}

// Writes a text to standard error. Where that fails there is nowhere left to say so.
pub fn say(text: &[u8], errors: &impl Print) {
    let _ = errors.write_all(text);
}

// Says what could not be read or written, and why, in the system's words alone: `io::Error` prints the error's number behind them.
pub fn say_failed(name: &str, error: &io::Error, errors: &impl Print) {
    let mut text = Cursor::new([0u8; 256]);
    // Words that do not fit are cut off.
    let _ = write!(text, "{error}");
    let length = (text.position() as usize).min(text.get_ref().len());
    let words = str::from_utf8(&text.get_ref()[..length]).unwrap_or("");
    let reason = words
        .split_once(" (os error ")
        .map_or(words, |(reason, _)| reason);
    let _ = println!(errors; "{name}: {reason}");
}
