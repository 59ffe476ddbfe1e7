// The entries for callers in C and Rust. Each hands on what it was lent and makes the answer one number of 64 bits:
// what a success counts, or a refusal's number times 2^32 plus its place (01, "Refusal numbers"; 02, requests 1 and 4).
#![tactic(auto)]

ghost use Rattle.std.specs.Prelude.{◌≡◌};
ghost use Rattle.model.specs.Answers.{answer_values};
ghost use Rattle.model.specs.Board.{board};
ghost use Rattle.model.specs.InOne.{in_one};
ghost use Rattle.promises.specs.ForC.{ReadsForC, WritesForC, TablesForC, OrdersForC, MovesForC, JudgesForC};
ghost use Rattle.promises.specs.ForC.{BuildsForC, MovesKeptForC, QuickForC};

use board::Set;
use model::Refusal;

// An answer as one number: what a success counts, or both numbers of a refusal.
fn in_one(answer: Result<u32, Refusal>) -> u64
    ensures { result ≡ in_one (answer_values answer) }
{
    match answer {
        Ok(n) => u64::from(n),
        Err(r) => refusals::in_one(r),
    }
}

// A text into a lent list of packed numbers: the number of lines.
#[unsafe(no_mangle)]
pub extern "C" fn gimmerskip_read(text: &[u8], plan: &mut [u32]) -> u64
    ensures { ReadsForC board text.now plan.old result plan.new }
{
    in_one(reading::read(text, plan))
}

// A packed plan into a lent buffer of bytes: the number of bytes.
#[unsafe(no_mangle)]
pub extern "C" fn gimmerskip_write(plan: &[u32], text: &mut [u8]) -> u64
    ensures { WritesForC board plan.now text.old result text.new }
{
    in_one(writing::write(plan, text))
}

// The table of a packed plan's claims into a lent list of sets: the number of lines.
#[unsafe(no_mangle)]
pub extern "C" fn gimmerskip_table(plan: &[u32], sets: &mut [Set]) -> u64
    ensures { TablesForC board plan.now sets.old result sets.new }
{
    in_one(claims::table(plan, sets))
}

// The verdict on a packed plan, with the order in a lent list of line numbers: the number of devices still held.
#[unsafe(no_mangle)]
pub extern "C" fn gimmerskip_verdict(plan: &[u32], order: &mut [u16]) -> u64
    ensures { OrdersForC board plan.now order.old result order.new }
{
    in_one(verdict::verdict(plan, order))
}

// The claim of a line, by its number from 1, moved to a device, in the lent plan and table: the number of sets that
// are not what they were.
#[unsafe(no_mangle)]
pub extern "C" fn gimmerskip_move(plan: &mut [u32], sets: &mut [Set], line: u32, device: u32) -> u64
    ensures { MovesForC board plan.old sets.old line device result plan.new
        sets.new }
{
    in_one(moving::move_claim(plan, sets, line, device))
}

// An order from elsewhere, as line numbers, judged against a packed plan: 0 if it is legal.
#[unsafe(no_mangle)]
pub extern "C" fn gimmerskip_judge(plan: &[u32], order: &[u16]) -> u64
    ensures { JudgesForC board plan.now order.now result }
{
    in_one(legal::judge(plan, order).map(|()| 0))
}

// A plan's table, its rows and the set of the devices held to the end into lent lists: the number of lines.
#[unsafe(no_mangle)]
pub extern "C" fn gimmerskip_build(
    plan: &[u32],
    sets: &mut [Set],
    rows: &mut [Set],
    held: &mut [Set],
) -> u64
    ensures { BuildsForC plan.now sets.old rows.old held.old
        result sets.new rows.new held.new }
{
    in_one(kept::build(plan, sets, rows, held))
}

// The claim of a line moved as above, with rows and held set kept beside plan and table: the number of sets that are
// not what they were.
#[unsafe(no_mangle)]
pub extern "C" fn gimmerskip_move_kept(
    plan: &mut [u32],
    sets: &mut [Set],
    rows: &mut [Set],
    held: &mut [Set],
    line: u32,
    device: u32,
) -> u64
    ensures { MovesKeptForC plan.old sets.old rows.old held.old line
        device result plan.new sets.new rows.new held.new }
{
    in_one(kept::move_kept(plan, sets, rows, held, line, device))
}

// The verdict on a packed plan by kept rows, without an order: the number of devices held to the end.
#[unsafe(no_mangle)]
pub extern "C" fn gimmerskip_quick(plan: &[u32], rows: &[Set]) -> u64
    ensures { QuickForC plan.now rows.now result }
{
    in_one(kept::quick(plan, rows))
}
