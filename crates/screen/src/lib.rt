// What is printed for a text (01, "Plans with their verdicts", its last part), into a lent buffer: the bytes that the
// program prints. The entry for the screens, exported to C, is the crate `screen_c` over this one.
#![tactic(auto)]

ghost use Rattle.std.specs.Prelude.{◌≤◌, ◌≡◌, length};
ghost use Rattle.model.specs.Board.{board};
ghost use Rattle.model.specs.Line.{max_lines};
ghost use Rattle.model.specs.Printed.{printed_order};
ghost use Rattle.promises.specs.Screen.{PrintsAs};
ghost use Rattle.screen.specs.Shows.{ShowsAs, OrdersText};

use board::MOST_LINES;
use model::Refusal;

// The longest print there is: 14 bytes of the longest first line, and 4,013 of the numbers 1 to 1,024, each with its
// newline. With a buffer of so many bytes everything fits.
pub const ROOM: usize = 4027;

// An order that was made: of so many lines, and so many devices stay held after it.
#[derive(Clone, Copy, Debug, PartialEq, Eq)]
struct Ordered {
    lines: usize,
    held: u32,
}

// An order: how many lines and how many devices stay held, then its line numbers, one to a line.
fn put_order(out: &mut [u8], order: &[u16], held: u32) -> usize
    requires { length order.now ≤ max_lines }
    ensures { ShowsAs (printed_order order.now held) out.old result out.new }
{
    let word = fields::put_word(out, 0, b"order");
    let mut at = fields::put_values(out, word, &[order.len() as u32, held]);
    for &line in order {
        at = fields::put_field(out, at, u64::from(line), b'\n');
    }
    at
}

// Reads a text's plan into the one list, and makes its order in the other.
fn order_text(
    text: &[u8],
    plan: &mut [u32; MOST_LINES],
    order: &mut [u16; MOST_LINES],
) -> Result<Ordered, Refusal>
    ensures { OrdersText text.now plan.old order.old result plan.new order.new }
{
    let lines = reading::read(text, plan)? as usize;
    let held = verdict::verdict(&plan[..lines], order)?;
    Ok(Ordered { lines, held })
}

// What the program prints for a text, into the front of the lent buffer: the number of bytes. With under 4,027 bytes of
// room it is 0, and nothing is written. The plan is read into the one lent list, and its order made in the other.
pub fn print(
    text: &[u8],
    plan: &mut [u32; MOST_LINES],
    order: &mut [u16; MOST_LINES],
    out: &mut [u8],
) -> usize
    ensures { PrintsAs board text.now plan.old order.old out.old result
        plan.new order.new out.new }
{
    if out.len() < ROOM {
        return 0;
    }
    match order_text(text, plan, order) {
        Ok(made) => put_order(out, &order[..made.lines], made.held),
        Err(r) => shows::put_refusal(out, r),
    }
}
