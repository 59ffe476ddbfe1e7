// The circle search (01, "Claims and rows"; 02, request 3): which devices lead back to themselves, found with a few
// words and the rows as they were lent. What cannot lead back is taken away. In what is left a walk along the rows
// comes back to a device where it was, and this is found and taken out with its circle: all that it leads to and that
// lead to it. A walk that gets stuck shows that there is more to take away.
ghost use Rattle.std.specs.Prelude.{◌≡◌, ◌<◌, ◌≤◌, true, length, if◌then◌else◌};
ghost use Rattle.model.specs.Board.{devices};
ghost use Rattle.model.specs.Rows.{onward};
ghost use Rattle.model.specs.Sets.{empty, member, lowest_of};
ghost use Rattle.rows.specs.Search.{meet, in_rows, lead_into, Trimmed, WalkEnds, Reached, LeadTo, WholeIn};
ghost use Rattle.rows.specs.Search.{CircleOf};

use board::{EACH_DEVICE, Set};
use choice::choose;

// ---- one look at the rows

// A look at rows is over so many, or twice so many, and so on: the compiler takes that many at a time and has none
// left over.
const BLOCK: usize = 8;

// Where a look at the rows of a set's devices ends, going down: at its lowest device or, for whole blocks, up to seven
// before it. A look at all rows, always, would be unrolled, and the rows then be kept at hand, on the stack, through
// the loops in which they are looked at again and again.
fn last_looked_at(s: Set) -> usize
    ensures { result ≤ lowest_of devices s }
{
    sets::lowest(s) as usize / BLOCK * BLOCK
}

// The devices that stand in a row. Every device that leads back is one of them.
fn in_rows(rows: &[Set; EACH_DEVICE]) -> Set
    ensures { result ≡ in_rows rows.now }
{
    rows.iter()
        .fold(sets::NONE, |stand, &row| sets::union(row, stand))
}

// The set, if two others have a device in common.
#[tactic(auto, unfolding(crate::specs::Search::meet, model::specs::Sets::empty))]
fn if_meet(s: Set, t: Set, set: Set) -> Set
    ensures { result ≡ (if meet s t then set else empty) }
{
    choose(sets::both(s, t) != sets::NONE, set, sets::NONE)
}

// What a look at the rows of a set's devices sees: those with a member of another set in their row, and all that stand
// in these rows.
#[derive(Drop)]
struct Seen {
    into: Set,
    onto: Set,
}

fn look(rows: &[Set; EACH_DEVICE], within: Set, s: Set) -> Seen
    ensures into { result.into ≡ lead_into rows.now within s }
    ensures onto { result.onto ≡ onward rows.now within }
{
    let low = last_looked_at(within);
    let mut into = sets::NONE;
    let mut onto = sets::NONE;
    for d in (low..EACH_DEVICE).rev() {
        let one = sets::only(d as u32);
        let row = if_meet(within, one, rows[d]);
        let leads = if_meet(row, s, one);
        into = sets::union(leads, into);
        onto = sets::union(row, onto);
    }
    Seen { into, onto }
}

// ---- taking away

// What is left of the set when a device is taken away as long as its row has none of those left, or it stands in no row
// of theirs. When nothing is left, no look is needed to see that nothing more goes.
fn trim(rows: &[Set; EACH_DEVICE], left: Set) -> Set
    ensures { Trimmed rows.now left result }
{
    let mut stays = left;
    let mut before = sets::NONE;
    while (stays != before) & (stays != sets::NONE) {
        before = stays;
        let seen = look(rows, stays, stays);
        stays = sets::both(seen.into, seen.onto);
    }
    stays
}

// ---- a walk

// Where a walk ended, and the devices of those left that it did not pass.
#[derive(Drop)]
struct Ended {
    at: u32,
    rest: Set,
}

// From the lowest device that is left, always to the lowest that is left of the row: until a device comes again, or
// the row has none of them.
fn walk(rows: &[Set; EACH_DEVICE], left: Set) -> Ended
    requires { 0 < left }
    ensures { WalkEnds rows.now left result }
{
    let mut at = sets::lowest(left);
    let mut rest = left;
    while sets::member(rest, at) {
        rest = sets::without(rest, sets::only(at));
        at = sets::lowest(sets::both(rows[at as usize], left));
    }
    Ended { at, rest }
}

// ---- what a device leads to, and what leads to it

// The device and those that it leads to by way of `within`, or so many of them that one is in `stop`.
fn ahead(rows: &[Set; EACH_DEVICE], within: Set, stop: Set, from: u32) -> Set
    requires { from < devices }
    ensures { Reached rows.now within stop from result }
{
    let mut reached = sets::only(from);
    let mut done = sets::NONE;
    while (reached != done) & (sets::both(reached, stop) == sets::NONE) {
        let d = sets::lowest(sets::without(reached, done));
        done = sets::union(sets::only(d), done);
        reached = sets::union(sets::both(rows[d as usize], within), reached);
    }
    reached
}

// These devices and those of `within` that lead to them by way of it. When all of `within` do, no look is needed more.
fn behind(rows: &[Set; EACH_DEVICE], within: Set, these: Set) -> Set
    ensures { LeadTo rows.now within these result }
{
    let mut lead = these;
    let mut before = sets::NONE;
    while (lead != before) & (lead != within) {
        before = lead;
        let seen = look(rows, sets::without(within, lead), lead);
        lead = sets::union(seen.into, lead);
    }
    lead
}

// The circle of a device that a walk came back to. What the walk passed leads there: where it passed all that the
// device leads to, that is the circle. Else all that leads there is looked for first, and then what of it the device
// leads to.
fn circle_of(rows: &[Set; EACH_DEVICE], left: Set, walked: Ended) -> Set
    requires ended { WalkEnds rows.now left walked }
    requires again { member left walked.at ≡ true }
    requires whole { WholeIn rows.now walked.at left }
    ensures { CircleOf rows.now walked.at result }
{
    let led = ahead(rows, left, walked.rest, walked.at);
    if sets::both(led, walked.rest) == sets::NONE {
        return led;
    }
    let lead = behind(rows, left, sets::without(left, walked.rest));
    ahead(rows, lead, sets::NONE, walked.at)
}

// ---- the search

// The devices that are still to be looked at, and those that are known to lead back.
#[derive(Drop)]
pub struct Search {
    pub left: Set,
    pub found: Set,
}

impl Search {
    ghost use Rattle.rows.specs.Search.{Underway, LessLeft};

    // What stands in rows, trimmed, is left, and nothing is found.
    pub fn begun(rows: &[Set; EACH_DEVICE]) -> Search
        ensures { Underway rows.now result }
    {
        Search {
            left: trim(rows, in_rows(rows)),
            found: sets::NONE,
        }
    }

    // One walk more: what it came back to is found with its circle, or, where it was stuck, what cannot lead back by
    // way of what is left is taken away.
    pub fn one_walk(self, rows: &[Set; EACH_DEVICE]) -> Search
        requires left { 0 < self.left }
        requires underway { Underway rows.now self }
        ensures { LessLeft rows.now self.left result }
    {
        let walked = walk(rows, self.left);
        if sets::member(self.left, walked.at) {
            let circle = circle_of(rows, self.left, walked);
            return Search {
                left: sets::without(self.left, circle),
                found: sets::union(circle, self.found),
            };
        }
        Search {
            left: trim(rows, self.left),
            found: self.found,
        }
    }
}
