// The verdict on a packed plan (01, "The order handed out"): an order of its lines with the number of devices that stay
// held, or why there is none.
#![tactic(auto)]

ghost use Rattle.model.specs.Board.{board};
ghost use Rattle.promises.specs.Verdict.{OrdersAs};
ghost use Rattle.verdict.specs.Findings.{Findings};

use board::{DEVICES, EACH_DEVICE, MOST_LINES, Set};
use model::Refusal;
use plan::NO_NOTES;
use rows::Held;

mod order;
mod waiting;

use crate::order::Known;

// The verdict on a plan without a fault, by what was found of it: 11; 9 and 10, each with the lowest device of its set;
// then the order.
fn decide(
    known: &Known,
    rows: &[Set; EACH_DEVICE],
    holds: Held,
    order: &mut [u16],
) -> Result<u32, Refusal>
    requires { Findings known.now.plan.now rows.now holds }
    ensures { OrdersAs board known.now.plan.now order.old result order.new }
{
    let n = known.plan.len();
    if order.len() < n {
        return Err(Refusal::ListTooShort(n as u32));
    }
    let d = sets::lowest(holds.twice);
    if d < DEVICES {
        return Err(Refusal::TwoLasting(d));
    }
    let e = sets::lowest(rows::circles(rows));
    if e < DEVICES {
        return Err(Refusal::LeadsBack(e));
    }
    known.hand_out(order);
    Ok(sets::count(holds.held))
}

// The verdict on any list of numbers: the order's line numbers into the front of the lent list; a refusal leaves the
// list as it was.
pub fn verdict(plan: &[u32], order: &mut [u16]) -> Result<u32, Refusal>
    ensures { OrdersAs board plan.now order.old result order.new }
{
    let mut notes = NO_NOTES;
    let mut rows = [sets::NONE; EACH_DEVICE];
    let mut lasting = [0; MOST_LINES];
    let holds = rows::holds(plan, &mut notes, &mut rows, &mut lasting)?;
    let known = Known {
        plan,
        notes: &notes,
        lasting: &lasting,
    };
    decide(&known, &rows, holds, order)
}
