// What programs do with files and with the standard streams: bytes and numbers written to standard output, a file read into lent room. What fails
// is said on standard error, and the program goes on. What writes has no `ensures`: no contract can say what the system wrote (DECISIONS 52).
#![tactic(auto)]

ghost use Rattle.std.specs.Prelude.{◌<◌, length, take, IfOk};
ghost use Rattle.std.specs.Io.KnownBytes.{Consumes, IsAtEnd};
ghost use Rattle.std.specs.Io.{ReadsAtMost};

use std::fs;
use std::io::{Error, Read, Result};
use std::rt::Files;

// Says on standard error what failed, and why. Where that fails too, nothing is said.
pub fn fail(rt: &impl Eprint, what: &str, error: Error) {
    let _ = eprintln!(rt; "{what}: {error}");
}

// Writes bytes to standard output.
pub fn say(rt: &(impl Print + Eprint), s: &[u8]) {
    if let Err(error) = rt.write_all(s) {
        fail(rt, "standard output", error);
    }
}

// Writes a number after a blank.
pub fn say_number(rt: &(impl Print + Eprint), n: u64) {
    if let Err(error) = print!(rt; " {n}") {
        fail(rt, "standard output", error);
    }
}

// Reads until the room is full or the input ends. Gives how many bytes came: they stand at the start of the room.
pub fn read_full<R: Read>(input: &mut R, room: &mut [u8]) -> Result<usize>
    ensures within { ReadsAtMost result room.new }
    ensures bytes { IfOk result (λ n. Consumes (R.remaining input.old) (R.remaining input.new) (take n room.new)) }
    ensures end { IfOk result (λ n. n < length room.old → IsAtEnd (R.remaining input.new)) }
{
    let mut at = 0;
    // Each read moves the place by as many bytes as came: read_exact tells no count, and read_to_end takes a Vec.
    while at < room.len() {
        match input.read(&mut room[at..])? {
            0 => break,
            n => at += n,
        }
    }
    Ok(at)
}

// Reads a file whole, as far as there is room. Gives how many bytes came.
pub fn read_file(files: &impl Files, name: &str, room: &mut [u8]) -> Result<usize>
    ensures { ReadsAtMost result room.new }
{
    let mut file = fs::open(files, name)?;
    read_full(&mut file, room)
}
