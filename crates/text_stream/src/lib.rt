// A program's standard input and output, and what it says on standard error where they fail.
#![tactic(auto)]

ghost use Rattle.std.specs.Prelude.{◌≤◌, length, IfSome};

use std::io::Read;

// Writes a text, and an error message to standard error if it cannot all be written.
pub fn print(rt: &(impl Print + Eprint), text: &[u8]) {
    if rt.write_all(text).is_err() {
        say(rt, "cannot write all of the output\n");
    }
}

// Reads standard input until the buffer is full or the input ends, and returns the bytes read. If the input fails before, it writes an error message
// to standard error.
pub fn read_all<'a>(rt: &(impl Input + Eprint), buffer: &'a mut [u8]) -> Option<&'a [u8]>
    ensures { IfSome result (λ part. length part.now ≤ length buffer.old) }
{
    let count = read_full(rt, buffer);
    if input_failed(rt, count, buffer.len()) {
        return None;
    }
    Some(&buffer[..count])
}

// What a program answers to a script: it puts its text into a buffer, and returns where the text ends there.
pub trait Program {
    fn answer(script: &[u8], out: &mut [u8]) -> usize
        ensures { result ≤ length out.new };
}

// Runs a program: reads a script from standard input, the first 65,536 bytes at most, and writes what the program puts into `text`.
// A contract can say nothing of what is read and written, so this function has no more of one than `print`. Each text has its own size, and its buffer
// comes from the caller. Tried: with the size as a const parameter the proof did not close, since nothing says that it is below 2^63.
pub fn run_program<P: Program>(rt: &(impl Input + Print + Eprint), text: &mut [u8]) {
    let mut input = [0u8; 65536];
    if let Some(script) = read_all(rt, &mut input) {
        let end = P::answer(script, text);
        print(rt, &text[..end]);
    }
}

// Reads standard input until the buffer is full, the input ends or a read fails, and returns how many bytes it put at the start of the buffer. A read
// that a signal interrupts counts as one that failed.
pub fn read_full(rt: &impl Input, buffer: &mut [u8]) -> usize
    ensures { result ≤ length buffer.new }
{
    let mut input = rt.reader();
    // A read says how many bytes it gave, so no `for` counts them.
    let mut done = 0;
    while done < buffer.len() {
        match input.read(&mut buffer[done..]) {
            Ok(0) | Err(_) => break,
            Ok(n) => done += n,
        }
    }
    done
}

// Whether standard input failed before its end, where `count` bytes were read into a buffer of `room` bytes; then it writes an error message to
// standard error. At the end of the input a further read gives no byte. A directory, a closed input and one that does not wait for its bytes fail.
pub fn input_failed(rt: &(impl Input + Eprint), count: usize, room: usize) -> bool {
    if room <= count {
        return false;
    }
    let mut next = [0u8; 1];
    if let Ok(0) = rt.reader().read(&mut next) {
        return false;
    }
    say(rt, "cannot read all of the input\n");
    true
}

// Writes an error message to standard error. Where that fails too, there is nowhere left to say so.
fn say(rt: &impl Eprint, message: &str) {
    let _ = rt.eprint(message);
}
