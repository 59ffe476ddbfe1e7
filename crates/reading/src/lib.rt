// Reading a plan (01, "The plan as text" and "Refusal numbers"): a text into a lent list of packed numbers. The lines
// are gathered in a list of its own and tested there, so that a refusal leaves the lent list as it was.
#![tactic(auto)]

ghost use Rattle.std.specs.Prelude.{◌≤◌, length};
ghost use Rattle.model.specs.Board.{board};
ghost use Rattle.model.specs.Line.{max_lines};
ghost use Rattle.promises.specs.Text.{ReadsAs};
ghost use Rattle.reading.specs.Kept.{KeepsAs};

use board::{MOST_BYTES, MOST_LINES};
use model::Refusal;

// All lines of a text into the front of the lent list, if they are a plan without a fault and the list is long enough.
fn keep(lines: &[u32], plan: &mut [u32]) -> Result<u32, Refusal>
    requires { length lines.now ≤ max_lines }
    ensures { KeepsAs board lines.now plan.old result plan.new }
{
    plan::fault(lines, false)?;
    let n = lines.len();
    if plan.len() < n {
        return Err(Refusal::ListTooShort(n as u32));
    }
    plan[..n].copy_from_slice(lines);
    Ok(n as u32)
}

// A text into a lent list of packed numbers.
pub fn read(text: &[u8], plan: &mut [u32]) -> Result<u32, Refusal>
    ensures { ReadsAs board text.now plan.old result plan.new }
{
    if MOST_BYTES < text.len() {
        return Err(Refusal::TextTooLong);
    }
    let mut found = [0; MOST_LINES];
    match lines::gather(text, false, &mut found) {
        Ok(n) => keep(&found[..n], plan),
        Err(stopped) => {
            // A fault of an earlier line decides over what the reader stopped at.
            plan::lines_fault(&found[..stopped.lines], false)?;
            Err(stopped.refusal)
        }
    }
}
