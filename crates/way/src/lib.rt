// The way of a line (01, "Moving a claim"): back through its job to that job's top, across to where another job starts
// it, and on in the same manner; and the lines under a take (02, request 2). The way is walked from line to line, by
// tables of the first line of each job and of the line that starts it, as `plan::scan` notes them, so that no line off
// the way is looked at; lines that take again are told by its flags. Each function answers for any tables and flags. A
// caller that keeps rows finds the devices of the lasting takes on the way by flags of its own (02, request 4).
#![tactic(auto)]

ghost use Rattle.std.specs.Prelude.{◌≡◌, ◌∷◌, ◌<◌, eqb, length, get_or, set};
ghost use Rattle.std.specs.Option.{ForSome};
ghost use Rattle.std.specs.Iterator.{YieldsFirst, item_count};
ghost use Rattle.model.specs.Lists.{first_of};
ghost use Rattle.model.specs.Sets.{empty};
ghost use Rattle.model.specs.Move.{changed};
ghost use Rattle.mates.specs.Found.{found};
ghost use Rattle.way.specs.Back.{line_with, line_before, way_by, under_by};
ghost use Rattle.way.specs.Join.{next_set, begun_set, rejoined_by, stale_by, mended_by};
ghost use Rattle.way.specs.Flagged.{flagged_by};

use board::Set;
use std::mem;

// What is told of a plan's lines and jobs, in lists of any length: a flag for each line, 1 where it takes again or
// gives such a take back; and for each job the numbers of its first line and of the line that starts it, 0 where there
// is none.
#[derive(Clone, Copy)]
pub struct Tables<'a> {
    pub again: &'a [u8],
    pub first: &'a [u32],
    pub starter: &'a [u32],
}

// ---- from line to line

// Where the way goes on after the line at i: at the line before, if that is of the same job, else at the line that
// starts the job, if the table has one further up. None where it ends.
#[tactic(auto, unfolding(crate::specs::Back::line_before))]
fn line_before(plan: &[u32], i: usize, starter: &[u32]) -> Option<usize>
    requires { i < length plan.now }
    ensures { result ≡ line_with (line_before plan.now starter.now i) }
{
    let before = i.checked_sub(1)?;
    let j = line::job(plan[i]);
    if line::job(plan[before]) == j {
        return Some(before);
    }
    let s = starter.get(j as usize).copied().unwrap_or(0) as usize;
    s.checked_sub(1).filter(|&k| k < i)
}

// ---- a line's set, by those stored for its successors

// The stored set of the line with number n; none of number 0, or past the table's end.
#[tactic(auto, unfolding(model::specs::Sets::empty))]
fn set_of(sets: &[Set], n: u32) -> Set
    ensures { result ≡ get_or (empty ∷ sets.now) n 0 }
{
    match n.checked_sub(1) {
        Some(k) => sets.get(k as usize).copied().unwrap_or(sets::NONE),
        None => sets::NONE,
    }
}

// That of the next line of the job, if there is one. Past the plan's end stands no line of a job, as the number 0.
#[tactic(auto, unfolding(crate::specs::Join::next_set, model::specs::Sets::empty))]
fn next_set(plan: &[u32], sets: &[Set], i: usize) -> Set
    requires { i < length plan.now }
    ensures { result ≡ next_set plan.now sets.now i }
{
    let next = plan.get(i + 1).copied().unwrap_or(0);
    if line::job(next) == line::job(plan[i]) {
        return sets.get(i + 1).copied().unwrap_or(sets::NONE);
    }
    sets::NONE
}

// Of a start, that of the started job's first line.
#[tactic(auto, unfolding(crate::specs::Join::begun_set, model::specs::Sets::empty))]
fn begun_set(l: u32, sets: &[Set], first: &[u32]) -> Set
    ensures { result ≡ begun_set l sets.now first.now }
{
    if line::is_start(l) {
        let number = first.get(line::operand(l) as usize).copied().unwrap_or(0);
        return set_of(sets, number);
    }
    sets::NONE
}

// Does the line at a place take again, or give such a take back? Not past the flags' end.
fn flagged(again: &[u8], k: usize) -> bool
    ensures { result ≡ eqb (get_or again.now k 0) 1 }
{
    again.get(k).copied().unwrap_or(0) == 1
}

// The set that the line at i should have.
#[tactic(auto, unfolding(crate::specs::Join::rejoined_by))]
fn rejoined(plan: &[u32], sets: &[Set], i: usize, tables: &Tables) -> Set
    requires { i < length plan.now }
    ensures { result ≡ rejoined_by plan.now tables.now.again.now tables.now.first.now sets.now i }
{
    let l = plan[i];
    let counts = line::plain(l, flagged(tables.again, i));
    claims::joined(
        counts,
        next_set(plan, sets, i),
        begun_set(l, sets, tables.first),
    )
}

// Rewrites the set of the line at i; tells whether it was stale.
#[tactic(auto, unfolding(crate::specs::Join::stale_by))]
fn mend(plan: &[u32], sets: &mut [Set], i: usize, tables: &Tables) -> bool
    requires { (i < length plan.now) × (i < length sets.old) }
    ensures mended { sets.new ≡ set sets.old i
        (rejoined_by plan.now tables.now.again.now tables.now.first.now sets.old i) }
    ensures counted { result ≡ stale_by plan.now tables.now.again.now tables.now.first.now sets.old i }
{
    let s = rejoined(plan, sets, i, tables);
    mem::replace(&mut sets[i], s) != s
}

// ---- along the way

// The way of a line, as the places of its lines from that line on.
#[derive(Drop)]
struct Way<'a> {
    plan: &'a [u32],
    starter: &'a [u32],
    next: Option<usize>,
    ghost in_plan: { ForSome next (λ k. k < length plan.now) },
}

impl<'a> Way<'a> {
    ghost use Rattle.way.specs.Way.{lines_left};

    // The way of the line at i; it has no line where the plan has none there, or the table no set.
    fn new(plan: &'a [u32], sets: &[Set], i: usize, starter: &'a [u32]) -> Way<'a>
        ensures { lines_left result ≡ way_by plan.now sets.now starter.now i }
    {
        let next = (i < plan.len().min(sets.len())).then_some(i);
        Way {
            plan,
            starter,
            next,
        }
    }
}

impl<'a> Iterator for Way<'a> {
    ghost use Rattle.way.specs.Way.{lines_left};

    type Item = usize;

    ghost next_gives = { YieldsFirst lines_left };

    ghost remaining = { item_count lines_left };

    fn next(&mut self) -> Option<usize> {
        let k = self.next?;
        self.next = line_before(self.plan, k, self.starter);
        Some(k)
    }
}

// The nearest stale line, going back along the way of the line at i.
pub fn stale_line(plan: &[u32], sets: &[Set], i: usize, tables: &Tables) -> Option<usize>
    ensures { result ≡ found (first_of
        (stale_by plan.now tables.now.again.now tables.now.first.now sets.now)
        (way_by plan.now sets.now tables.now.starter.now i)) }
{
    Way::new(plan, sets, i, tables.starter).find(|&k| sets[k] != rejoined(plan, sets, k, tables))
}

// The nearest stale line after the line at i and before position `stop`; none where the plan or the table does not go
// so far.
pub fn stale_under(
    plan: &[u32],
    sets: &[Set],
    i: usize,
    stop: usize,
    tables: &Tables,
) -> Option<usize>
    ensures { result ≡ found (first_of
        (stale_by plan.now tables.now.again.now tables.now.first.now sets.now)
        (under_by plan.now sets.now i stop)) }
{
    let end = plan.len().min(sets.len());
    if stop <= i || end < stop {
        return None;
    }
    (i + 1..stop).find(|&u| sets[u] != rejoined(plan, sets, u, tables))
}

// Rewrites the sets on the way of the line at i, and counts those that are another than before.
pub fn mend_way(plan: &[u32], sets: &mut [Set], i: usize, tables: &Tables) -> usize
    ensures mended { sets.new
        ≡ mended_by plan.now tables.now.again.now tables.now.first.now sets.old
        (way_by plan.now sets.old tables.now.starter.now i) }
    ensures counted { result ≡ changed plan.now sets.old sets.new }
{
    let mut count: usize = 0;
    for k in Way::new(plan, sets, i, tables.starter) {
        count += usize::from(mend(plan, sets, k, tables));
    }
    count
}

// The devices of the lines on the way of the line at i that have a flag.
pub fn flagged_devices(plan: &[u32], sets: &[Set], i: usize, starter: &[u32], flags: &[u8]) -> Set
    ensures { result ≡ flagged_by plan.now flags.now (way_by plan.now sets.now starter.now i) empty }
{
    let mut found = sets::NONE;
    for k in Way::new(plan, sets, i, starter) {
        let one = sets::only_if(flagged(flags, k), line::operand(plan[k]));
        found = sets::union(one, found);
    }
    found
}
