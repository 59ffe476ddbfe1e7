// The table of claims (01, "Claims and rows"): one set a line, worked out in one pass from the end. Lines are taken as
// they count: one that takes again what its job holds claims nothing, as a do (02, request 2).
#![tactic(auto)]

ghost use Rattle.std.specs.Prelude.{◌≡◌, ◌≤◌, length};
ghost use Rattle.std.proofs.Math.Option.{none};
ghost use Rattle.model.specs.Lists.{over};
ghost use Rattle.model.specs.WellFormed.{fault};
ghost use Rattle.model.specs.Claims.{table};
ghost use Rattle.model.specs.Board.{board};
ghost use Rattle.plan.specs.Again.{again_flags};
ghost use Rattle.claims.specs.Claim.{own_of, claim_with, begun_of, claim_of};
ghost use Rattle.promises.specs.Table.{TablesAs};

use board::{MOST_LINES, Set};
use choice::choose;
use line::EACH_OPERAND;
use model::Refusal;
use plan::NO_NOTES;

// A line's own claim: its device, if it is a take.
#[tactic(auto, unfolding(crate::specs::Claim::own_of, model::specs::Sets::empty))]
pub fn own(l: u32) -> Set
    ensures { result ≡ own_of l }
{
    sets::only_if(line::is_take(l), line::operand(l))
}

// A line's claim set: its own claim, joined with what its job claims after it and with what a started job claims.
#[tactic(auto, unfolding(crate::specs::Claim::claim_with))]
pub fn joined(l: u32, next: Set, begun: Set) -> Set
    ensures { result ≡ claim_with l next begun }
{
    sets::union(own(l), sets::union(next, begun))
}

// Of a start, what the started job claims: `claimed` has for each job the claim set of the first of its lines that
// the pass from the end has met, and an entry for each operand, so that what a line starts is found without a test.
#[tactic(auto, unfolding(crate::specs::Claim::begun_of, model::specs::Line::operand, model::specs::Sets::empty))]
fn begun(l: u32, claimed: &[Set; EACH_OPERAND]) -> Set
    ensures { result ≡ begun_of l claimed.now }
{
    let started = claimed[line::operand(l) as usize];
    choose(line::is_start(l), started, sets::NONE)
}

// A line's claim set, by what each job claims, of the lines that the pass has met.
#[tactic(auto, unfolding(crate::specs::Claim::claim_of))]
pub fn claim(l: u32, next: Set, claimed: &[Set; EACH_OPERAND]) -> Set
    ensures { result ≡ claim_of l next claimed.now }
{
    joined(l, next, begun(l, claimed))
}

// The table, from the plan's end, into the front of the lent list. `again` has the flags of the lines that take again.
fn fill(plan: &[u32], again: &[u8; MOST_LINES], sets: &mut [Set])
    requires sound { fault board plan.now ≡ none }
    requires flags { again.now ≡ again_flags plan.now }
    requires room { length plan.now ≤ length sets.old }
    ensures { sets.new ≡ over (table plan.now) sets.old }
{
    let mut claimed = [sets::NONE; EACH_OPERAND];
    for i in (0..plan.len()).rev() {
        let l = line::plain(plan[i], again[i] == 1);
        let j = line::job(l) as usize;
        let s = claim(l, claimed[j], &claimed);
        sets[i] = s;
        claimed[j] = s;
    }
}

// The table of a plan's claims, into the front of the lent list; a refusal (2 to 7, 11) leaves the list as it was.
pub fn table(plan: &[u32], sets: &mut [Set]) -> Result<u32, Refusal>
    ensures { TablesAs board plan.now sets.old result sets.new }
{
    let mut notes = NO_NOTES;
    plan::scan(plan, false, &mut notes)?;
    let n = plan.len();
    if sets.len() < n {
        return Err(Refusal::ListTooShort(n as u32));
    }
    fill(plan, &notes.again, sets);
    Ok(n as u32)
}
