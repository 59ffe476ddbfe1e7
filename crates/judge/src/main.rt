// Program `judge` (02, request 1): reads a plan, the line --, and an order from elsewhere from standard input, and
// prints the line `legal`, or the line of the refusal. Where standard input cannot be read or standard output cannot be
// written, one line on standard error says so.
#![tactic(auto)]

ghost use Rattle.std.specs.Prelude.{ℕ, List, ◌≡◌, length, take};
ghost use Rattle.model.specs.Board.{board};
ghost use Rattle.model.specs.Judged.{judge_printed, judge_room};
ghost use Rattle.shell.specs.Input.{Within};

use board::{MOST_BYTES, MOST_LINES};
use shell::Failure;
use std::io;
use std::io::Read;

// Reads standard input, as many bytes of it as decide: those past them would change nothing.
fn read_text(stdin: &mut impl Read, room: &mut [u8]) -> io::Result<usize>
    requires { length room.old ≡ judge_room }
    ensures { Within result room.new }
{
    shell::read_input(stdin, room)
}

// Writes what is printed for an input, which these bytes are, to standard output. The text is the input's front, as
// much of it as decides.
fn write_printed(rt: &impl Print, text: &[u8], bytes: &[u8]) -> io::Result<()>
    requires { (input : List ℕ) → text.now ≡ take judge_room input → bytes.now ≡ judge_printed board input }
{
    shell::write_output(rt, bytes)
}

// Reads a plan and an order from elsewhere, and prints how it is judged.
fn run(stdin: &mut impl Read, rt: &impl Print) -> Result<(), Failure> {
    // a plan's text, the line that parts, an entry of five bytes for each line, and a byte that shows whether the list
    // goes on
    let mut input = [0; MOST_BYTES + 3 + MOST_LINES * 5 + 1];
    let mut out = [0u8; judged::ANSWER_ROOM];
    let n = read_text(stdin, &mut input).map_err(|_| Failure::Reading)?;
    let text = &input[..n];
    let m = judged::print(text, &mut out);
    write_printed(rt, text, &out[..m]).map_err(|_| Failure::Writing)
}

// The program ends with status 0 also where something failed, so `main` answers no Result.
fn main(rt: HostRuntime) {
    if let Err(wrong) = run(&mut rt.stdin(), &rt) {
        shell::complain_of(&rt, "judge", &wrong);
    }
}
