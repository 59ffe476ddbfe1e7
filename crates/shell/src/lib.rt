// What a program does with the world around it (01, "Plans with their verdicts", its last part): standard input into a
// lent buffer, bytes to standard output, a line on standard error. No other room asks the system for anything; what its
// calls do is assumed, not shown.
#![tactic(auto)]

ghost use Rattle.shell.specs.Input.{Within};

use std::error::Error;
use std::fmt::{Display, Formatter, Write};
use std::io::Read;
use std::{fmt, io};

// What a program could not do. It is told in these words, whatever the system says of it.
#[derive(Clone, Copy, Debug, PartialEq, Eq)]
pub enum Failure {
    Reading,
    Writing,
}

impl Display for Failure {
    fn fmt<W: Write>(&self, f: &mut Formatter<W>) -> fmt::Result {
        f.write_str(match self {
            Failure::Reading => "standard input cannot be read",
            Failure::Writing => "standard output cannot be written",
        })
    }
}

impl Error for Failure {}

// All of the input into the front of the room, piece by piece, up to its end or that of the room, and how many bytes it
// is. Each piece has a byte at least, so there are no more pieces than the room has bytes. The loop stands here since
// there is no heap: the library reads to the end into a list of the heap alone.
pub fn read_input(input: &mut impl Read, room: &mut [u8]) -> io::Result<usize>
    ensures { Within result room.new }
{
    let mut n = 0;
    while n < room.len() {
        let piece = input.read(&mut room[n..])?;
        if piece == 0 {
            break;
        }
        n += piece;
    }
    Ok(n)
}

// Writes all of the bytes to standard output.
pub fn write_output(rt: &impl Print, bytes: &[u8]) -> io::Result<()> {
    rt.write_all(bytes)
}

// Says on standard error, in a line that begins with the program's name, what went wrong.
pub fn complain(rt: &HostRuntime, line: &[u8]) {
    // Where standard error takes nothing, nobody is left to be told.
    let _ = rt.stderr().write_all(line);
}

// The same of what went wrong as it prints.
pub fn complain_of(rt: &impl Eprint, program: &str, wrong: &impl Display) {
    let _ = eprintln!(rt; "{program}: {wrong}");
}
