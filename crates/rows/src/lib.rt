// The devices that stay held, what they wait for, and circles (01, "Claims and rows"): the lasting takes of a plan, its
// rows, and the devices that lead back to themselves. A line that takes again what its job holds counts as a do: it
// never lasts and makes no row (02, request 2).
#![tactic(auto)]

ghost use Rattle.std.specs.Prelude.{◌≡◌, suc, ◌%◌, ◌^◌, true, ◌&&◌, length, set, nat_lt, slice_set};
ghost use Rattle.std.proofs.Math.Option.{none};
ghost use Rattle.model.specs.Board.{devices, board};
ghost use Rattle.model.specs.Line.{operand, is_take, is_line, max_job};
ghost use Rattle.model.specs.Sets.{union_of};
ghost use Rattle.model.specs.WellFormed.{fault};
ghost use Rattle.plan.specs.Again.{again_flags};
ghost use Rattle.rows.specs.Where.{circles_of};
ghost use Rattle.rows.specs.Lasting.{wanted_before, row_joined};
ghost use Rattle.rows.specs.Twice.{twice_in};
ghost use Rattle.rows.specs.Holds.{PassedOn, JoinedOn, WalkedAs, HoldsAs, TabledAs, holds_by};

use board::{DEVICES, EACH_DEVICE, EACH_JOB, MOST_LINES, Set};
use choice::choose;
use line::EACH_OPERAND;
use model::Refusal;
use plan::{NO_NOTES, Notes};

mod search;

use search::Search;

// The devices that lead back to themselves, for any rows.
pub fn circles(rows: &[Set; EACH_DEVICE]) -> Set
    ensures { result ≡ circles_of rows.now }
{
    let mut search = Search::begun(rows);
    // Nothing is counted: how many walks there are, the rows decide.
    while search.left != sets::NONE {
        search = search.one_walk(rows);
    }
    search.found
}

// ---- what is held to the end

// Devices that are held to a plan's end: those that one line or more keeps, and those that two do.
#[derive(Clone, Copy)]
pub struct Held {
    pub held: Set,
    pub twice: Set,
}

// No device.
const NONE_HELD: Held = Held {
    held: sets::NONE,
    twice: sets::NONE,
};

impl Held {
    ghost use Rattle.rows.specs.Holds.{held_with};

    // With the devices of one set more: those that were held already are held twice.
    fn with(self, s: Set) -> Held
        ensures { result ≡ held_with self s }
    {
        Held {
            held: sets::union(s, self.held),
            twice: sets::union(sets::both(self.held, s), self.twice),
        }
    }
}

// ---- one line of a walk back over the plan

// What a walk back knows of the lines that it has passed: the job of the line passed last, how many gives of that job
// still want their takes, whether that line is a lasting take, and the devices with a lasting take and with two.
#[derive(Clone, Copy)]
pub struct Passed {
    pub job: u32,
    pub wanted: u32,
    pub lasts: bool,
    pub holds: Held,
}

// What it knows at the plan's end.
pub const NONE_PASSED: Passed = Passed {
    job: 0,
    wanted: 0,
    lasts: false,
    holds: NONE_HELD,
};

// How many gives want their takes before a line, where so many want them after it: a take serves one, if there is one.
// In a plan they are far from the word's end, past which they would be counted from 0 on. Tests are added and taken off
// as numbers: of choices between the three cases the compiler made a branch on the verb, timed 3 ns a line more.
#[tactic(auto, unfolding(crate::specs::Lasting::wanted_before))]
fn wanted_before(l: u32, after: u32) -> u32
    ensures { result ≡ wanted_before l after % 2 ^ 32 }
{
    let given = std::num::wrapping_add_u32(after, u32::from(line::is_give(l)));
    given.saturating_sub(u32::from(line::opens(l)))
}

// One line further back, as it stands and as it counts. Gives match every take, so these are counted as they stand; a
// line that counts as a take and serves no give lasts. A device that was held already is held twice.
#[tactic(auto, unfolding(crate::specs::Lasting::wanted_after))]
pub fn pass_line(passed: Passed, l: u32, plain: u32) -> Passed
    ensures { PassedOn result passed l plain }
{
    let j = line::job(l);
    let after = choose(j == passed.job, passed.wanted, 0);
    let lasts = line::is_take(plain) & (after == 0);
    let one = sets::only_if(lasts, line::operand(l));
    Passed {
        job: j,
        wanted: wanted_before(l, after),
        lasts,
        holds: passed.holds.with(one),
    }
}

// What lies beyond a lasting take is joined to the row of its device, if the board has it. It is one test, so that
// there is one branch.
#[tactic(auto, unfolding(crate::specs::Lasting::row_joined))]
pub fn join_row(l: u32, lasts: bool, next: Set, rows: &mut [Set; EACH_DEVICE])
    ensures { rows.new ≡ row_joined l (lasts && nat_lt (operand l) devices) next rows.old }
{
    let o = line::operand(l);
    if lasts & (o < DEVICES) {
        let d = o as usize;
        rows[d] = sets::union(next, rows[d]);
    }
}

// The rows with a line, as it counts, and what its job claims, which is now the line's claim set. The answer is that
// set.
fn join_line(
    l: u32,
    lasts: bool,
    rows: &mut [Set; EACH_DEVICE],
    claimed: &mut [Set; EACH_OPERAND],
) -> Set
    requires on_board { is_line board l ≡ true }
    requires takes { lasts ≡ true → is_take l ≡ true }
    ensures { JoinedOn l lasts rows.old claimed.old result rows.new claimed.new }
{
    let j = line::job(l) as usize;
    let next = claimed[j];
    join_row(l, lasts, next, rows);
    let s = claims::claim(l, next, claimed);
    claimed[j] = s;
    s
}

// A set at its place in a lent table, if the table has the place. (With `get_mut` the proof does not close: of a slice
// std promises nothing about the elements once that loan is over.)
fn store(table: &mut [Set], i: usize, s: Set)
    ensures { table.new ≡ slice_set table.old i s }
{
    if i < table.len() {
        table[i] = s;
    }
}

// ---- the walks

// The walk back over a plan without a fault: its flags, its rows and the two sets, all in one pass from the plan's end,
// since whether a line lasts decides what it adds to the rows and to the sets. The plan's table is at hand on the way:
// a caller that keeps it beside the rows lends a list for it, another lends one without a place.
fn walk_back(
    plan: &[u32],
    again: &[u8; MOST_LINES],
    rows: &mut [Set; EACH_DEVICE],
    lasting: &mut [u8; MOST_LINES],
    table: &mut [Set],
) -> Held
    requires sound { fault board plan.now ≡ none }
    requires flags { again.now ≡ again_flags plan.now }
    ensures { WalkedAs plan.now table.old result rows.new lasting.new table.new }
{
    *rows = [sets::NONE; EACH_DEVICE];
    *lasting = [0; MOST_LINES];
    let mut claimed = [sets::NONE; EACH_OPERAND];
    let mut passed = NONE_PASSED;
    for i in (0..plan.len()).rev() {
        let l = plan[i];
        let plain = line::plain(l, again[i] == 1);
        passed = pass_line(passed, l, plain);
        lasting[i] = u8::from(passed.lasts);
        let s = join_line(plain, passed.lasts, rows, &mut claimed);
        store(table, i, s);
    }
    passed.holds
}

// By what each job holds after its last line, the devices that some job holds and those that two jobs do.
fn over_jobs(holdings: &[Set; EACH_JOB]) -> Held
    ensures held { result.held ≡ union_of holdings.now }
    ensures twice { result.twice ≡ twice_in holdings.now }
{
    holdings.iter().fold(NONE_HELD, |holds, &s| holds.with(s))
}

// The holds of a plan, tested by 2 to 7, and nothing beside them.
pub fn held_to_end(plan: &[u32]) -> Result<Held, Refusal>
    ensures { result ≡ holds_by (fault board plan.now) plan.now }
{
    let mut notes = NO_NOTES;
    plan::scan(plan, false, &mut notes)?;
    Ok(over_jobs(&notes.holdings))
}

// The holds of a plan, tested by 2 to 7, with its notes, its rows, and the flags of its lasting takes in what is lent.
pub fn holds(
    plan: &[u32],
    notes: &mut Notes,
    rows: &mut [Set; EACH_DEVICE],
    lasting: &mut [u8; MOST_LINES],
) -> Result<Held, Refusal>
    ensures { HoldsAs plan.now notes.old rows.old lasting.old result notes.new rows.new lasting.new }
{
    plan::scan(plan, false, notes)?;
    Ok(walk_back(plan, &notes.again, rows, lasting, &mut []))
}

// The rows of a plan, tested by 2 to 7, and as much of its table as the lent list has room for; the answer is as above.
pub fn tabled(
    plan: &[u32],
    rows: &mut [Set; EACH_DEVICE],
    table: &mut [Set],
) -> Result<Held, Refusal>
    ensures { TabledAs plan.now rows.old table.old result rows.new table.new }
{
    let mut notes = NO_NOTES;
    let mut lasting = [0; MOST_LINES];
    plan::scan(plan, false, &mut notes)?;
    Ok(walk_back(plan, &notes.again, rows, &mut lasting, table))
}
