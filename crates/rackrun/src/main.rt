// Reads the input, runs it, and prints one line for each step.
#![tactic(auto)]

ghost use Rattle.std.specs.Prelude.{◌≡◌, ◌≤◌, ◌<◌, OnOk, IfSome, length, take};
ghost use Rattle.std.specs.Io.KnownBytes.{Consumes, IsAtEnd};
ghost use Rattle.spec_rackrun.specs.RuledText.{ruled_text};

use rackrun_text::{INPUT_SIZE, TEXT_SIZE};
use spec_rack::LONGEST_RECORD;
use std::io;
use std::io::Read;

// Reads until the buffer is full, the input ends or a read fails. Gives how many bytes are at the front of the buffer, and whether a read failed: the count
// stands beside the result, since what was read before a failure is run too. Not the library's `copy`, which says nothing of a failure.
fn read_full<R: Read>(input: &mut R, buffer: &mut [u8]) -> (usize, io::Result<()>)
    ensures fits { result.0 ≤ length buffer.new }
    ensures bytes { Consumes (R.remaining input.old) (R.remaining input.new) (take result.0 buffer.new) }
    ensures whole { OnOk result.1 (result.0 < length buffer.old → IsAtEnd (R.remaining input.new)) }
{
    let mut done = 0;
    while done < buffer.len() {
        match input.read(&mut buffer[done..]) {
            Ok(0) => break,
            Ok(n) => done += n,
            Err(error) => return (done, Err(error)),
        }
    }
    (done, Ok(()))
}

// Reads an input, runs it, places its text at the front of `out` and gives the text's length, and whether a read failed. Where none did, the text is that
// of all that the reader had, which the rules alone decide.
fn run<R: Read>(input: &mut R, out: &mut [u8; TEXT_SIZE]) -> (usize, io::Result<()>)
    ensures fits { result.0 ≤ length out.new }
    ensures text { OnOk result.1 (IfSome (R.remaining input.old) (λ bytes. take result.0 out.new ≡ ruled_text bytes)) }
{
    let mut bytes = [0; INPUT_SIZE];
    let mut rec = [0; LONGEST_RECORD];
    let (count, read) = read_full(input, &mut bytes);
    let length = rackrun_text::report(&bytes[..count], &mut rec, out);
    (length, read)
}

// Prints the text. Where standard output does not take all of it, standard error says so.
fn print(rt: &(impl Print + Eprint), text: &[u8]) -> io::Result<()> {
    if rt.write_all(text).is_ok() {
        return Ok(());
    }
    eprintln!(rt; "rackrun: not all lines could be written")
}

fn main(rt: HostRuntime) -> io::Result<()> {
    let mut out = [0; TEXT_SIZE];
    let (length, read) = run(&mut rt.stdin(), &mut out);
    print(&rt, &out[..length])?;
    read
}
