// Program `order` (01, "Plans with their verdicts", its last part): reads a plan from standard input and prints its
// order, or why it has none. Where standard input cannot be read or standard output cannot be written, one line on
// standard error says so.
#![tactic(auto)]

ghost use Rattle.std.specs.Prelude.{◌≡◌};
ghost use Rattle.model.specs.Board.{board};
ghost use Rattle.model.specs.Printed.{printed};

use board::{MOST_BYTES, MOST_LINES};
use shell::Failure;
use std::io;
use std::io::Read;

// Writes what is printed for a text, which these bytes are, to standard output.
fn write_printed(rt: &impl Print, text: &[u8], bytes: &[u8]) -> io::Result<()>
    requires { bytes.now ≡ printed board text.now }
{
    shell::write_output(rt, bytes)
}

// Reads a plan, and prints its order or why it has none.
fn run(stdin: &mut impl Read, rt: &impl Print) -> Result<(), Failure> {
    // one byte more than a plan's text may have: a longer input fills it, and is refused
    let mut input = [0; MOST_BYTES + 1];
    let mut plan = [0u32; MOST_LINES];
    let mut order = [0u16; MOST_LINES];
    let mut out = [0u8; screen::ROOM];
    let n = shell::read_input(stdin, &mut input).map_err(|_| Failure::Reading)?;
    let text = &input[..n];
    let m = screen::print(text, &mut plan, &mut order, &mut out);
    write_printed(rt, text, &out[..m]).map_err(|_| Failure::Writing)
}

// The program ends with status 0 also where something failed, so `main` answers no Result. (What `judge` has alike
// stays there: each program says of its own bytes what they are.)
fn main(rt: HostRuntime) {
    if let Err(wrong) = run(&mut rt.stdin(), &rt) {
        shell::complain_of(&rt, "order", &wrong);
    }
}
