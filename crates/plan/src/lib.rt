// The packed plan (01, "Rules of a well-formed plan" and "Refusal numbers", 2 to 7; 02, request 5, for 16 and 17): the
// walk along its lines, each tested for 3, 2, 4 and its verb's own rule; the tests after the last line; the line
// numbers of each job's first line and of the line that starts it; the devices that each job holds after the last line;
// and which lines take again what their job holds, or give such a take back (02, request 2). A plan is one of the
// morning or one taken up at midday, which may have held lines: the caller says which, by a `bool` as `board_at` of
// `model` has it.
#![tactic(auto)]

ghost use Rattle.std.specs.Prelude.{◌≡◌, ℕ, suc, ◌+◌, ◌-◌, ◌<◌, ◌≤◌, true, false, not, List, [], length};
ghost use Rattle.std.specs.Prelude.{if◌then◌else◌, ◌==◌, slice_index, IfOk};
ghost use Rattle.model.specs.Line.{job, operand, is_start, is_line, max_lines, max_job};
ghost use Rattle.model.specs.Sets.{empty};
ghost use Rattle.model.specs.WellFormed.{fault, first_fault};
ghost use Rattle.model.specs.Board.{devices, board_at};
ghost use Rattle.plan.specs.Checked.{checked};
ghost use Rattle.plan.specs.Ends.{lower_of, earlier_of, EndsAs, WholeAs, ScansAs};
ghost use Rattle.plan.specs.Walk.{place_fault, rule_of, step_of, held_in, given_by, misgiven, Walked, Stack};
ghost use Rattle.plan.specs.Walk.{on, held_fault, named_after, next_by};
ghost use Rattle.plan.specs.Noting.{taken_by, change_of, handled_by, NotesAs, NotesOf};

use board::{DEVICES, EACH_JOB, MOST_LINES, Set};
use choice::choose;
use model::Refusal;
use std::mem::replace;

// What is noted of a plan: the number of each job's first line and of the line that starts it, 0 where there is none; a
// flag for each line, 1 where it takes again what its job holds or gives such a take back; the devices that each job
// holds after the last line. (First lines and starters are two lists, since `way` reads each by itself.)
#[derive(Drop)]
pub struct Notes {
    pub first: [u32; EACH_JOB],
    pub starter: [u32; EACH_JOB],
    pub again: [u8; MOST_LINES],
    pub holdings: [Set; EACH_JOB],
}

// The notes before the first line.
pub const NO_NOTES: Notes = Notes {
    first: [0; EACH_JOB],
    starter: [0; EACH_JOB],
    again: [0; MOST_LINES],
    holdings: [sets::NONE; EACH_JOB],
};

// The open takes stand on a stack above place 0, which is no take's: there is one a line at most.
const STACK_PLACES: usize = MOST_LINES + 1;

// What place 0 has: no device's number.
const FLOOR: u8 = DEVICES as u8;

// The devices of a job's open takes, the latest last. What each has added to the devices held stands in a list of its
// own and not in pairs with them: a walk that notes nothing fills no more than these bytes, an eighth of the pairs'.
#[derive(Drop)]
struct Takes {
    stack: [u8; STACK_PLACES],
    ghost floored: { Stack stack },
}

// Where the walk stands between two lines. The lists are not in it, so that it can stay in registers.
#[derive(Clone, Copy)]
struct Standing {
    // How many lines are passed: the position of the next.
    lines: u32,
    // The job of the line before, 0 before the first; and whether that line is held. Then so are all of its job.
    job: u32,
    early: bool,
    // The devices of the held lines.
    named: Set,
    // How many takes of the job are open.
    depth: u32,
    // The devices that the job holds, where they are noted.
    held: Set,
    ghost few: { lines ≤ max_lines },
    ghost deep: { depth ≤ lines },
}

// Where it stands before the first line.
const START: Standing = Standing {
    lines: 0,
    job: 0,
    early: false,
    named: sets::NONE,
    depth: 0,
    held: sets::NONE,
};

impl Standing {
    ghost use Rattle.plan.specs.Standing.{InJob, After};

    // The first tests of the next line. None asks whether its job is the same, which cannot be foretold: the job less
    // that of the line before is 0 or 1, and that of a lower job goes round the word's end and is far above.
    fn misplaced(&self, n: u32, midday: bool) -> Result<(), Refusal>
        requires { self.now.lines < max_lines }
        ensures { result ≡ checked (place_fault (board_at midday) n self.now.lines self.now.job) }
    {
        if !line::is_line(n, midday) {
            return Err(Refusal::Malformed(self.lines + 1));
        }
        if 1 < line::job(n).wrapping_sub(self.job) {
            return Err(Refusal::JobOutOfSequence(self.lines + 1));
        }
        Ok(())
    }

    // A held line's own rule: 16 where its device is named by a held line before it; then 17 where a line of its job
    // before it is not held, or a line starts its job. In the morning no line is held, and the branch is never taken.
    fn misheld(&self, n: u32, starter: &[u32; EACH_JOB]) -> Result<(), Refusal>
        requires few { self.now.lines < max_lines }
        requires its_job { job n ≤ max_job }
        ensures { result
            ≡ checked (held_fault n self.now.lines self.now.job self.now.named self.now.early starter.now) }
    {
        if line::is_held(n) {
            if sets::member(self.named, line::device(n)) {
                return Err(Refusal::HeldTwice(self.lines + 1));
            }
            let j = line::job(n);
            if ((j == self.job) & !self.early) | (starter[j as usize] != 0) {
                return Err(Refusal::HeldLate(self.lines + 1));
            }
        }
        Ok(())
    }

    // The same for the next line's job: one that begins has no open take, and holds nothing. There is no branch on
    // whether it begins.
    #[tactic(auto, unfolding(model::specs::Sets::empty))]
    fn in_job(&self, n: u32) -> Standing
        ensures { InJob n self.now result }
    {
        let same = line::job(n) == self.job;
        let mut here = *self;
        here.depth = choose(same, self.depth, 0);
        here.held = choose(same, self.held, sets::NONE);
        here
    }

    // Where the walk stands after a line that breaks nothing.
    fn pass(&mut self, n: u32, depth: u32, held: Set)
        requires few { self.old.lines < max_lines }
        requires deep { depth ≤ suc self.old.lines }
        ensures { After n depth held self.old self.new }
    {
        *self = Standing {
            lines: self.lines + 1,
            job: line::job(n),
            early: line::is_held(n),
            named: named_after(self.named, n),
            depth,
            held,
        };
    }
}

// The devices of held lines, one line more. In the morning the branch is never taken.
#[tactic(auto, unfolding(crate::specs::Walk::named_after))]
fn named_after(named: Set, n: u32) -> Set
    ensures { result ≡ named_after devices n named }
{
    if line::is_held(n) {
        return sets::union(named, sets::only(line::device(n)));
    }
    named
}

// The device that a line takes or holds, as a set; that it gives. Sets stand for tests, so that there is no branch on
// the verb: verbs come in no order, and the processor would guess such a branch wrong at every other line.
fn taken(n: u32) -> Set
    ensures { result ≡ taken_by n }
{
    sets::only_if(line::opens(n), line::device(n))
}

fn given(n: u32) -> Set
    ensures { result ≡ given_by n }
{
    sets::only_if(line::is_give(n), line::device(n))
}

// Is a give not of the device taken last?
#[tactic(auto, unfolding(model::specs::Sets::empty))]
fn misgives(n: u32, latest: u8) -> bool
    ensures { result ≡ misgiven n latest }
{
    sets::without(given(n), sets::only(u32::from(latest))) != sets::NONE
}

// How many takes are open after a take, a give or neither.
fn deeper(depth: u32, takes: bool, gives: bool) -> u32
    requires deep { depth ≤ max_lines }
    requires some_given { gives ≡ true → 1 ≤ depth }
    requires one_verb { takes ≡ true → gives ≡ false }
    ensures { result ≡ (if takes then depth + 1 else (if gives then depth - 1 else depth)) }
{
    depth + u32::from(takes) - u32::from(gives)
}

impl Takes {
    // The takes that are open after a do, a take, a held line or a give, without a branch on the verb; a give is of the
    // device taken last. The device is stacked above the open takes whatever the verb; it counts where the depth goes
    // up. A line of the morning is one at midday too, so that nobody is asked which it is.
    fn held_after(&mut self, n: u32, depth: u32) -> u32
        requires room { depth < max_lines }
        requires line { is_line (board_at true) n ≡ true }
        requires no_start { is_start n ≡ false }
        requires given { misgiven n (slice_index self.old.stack depth) ≡ false }
        ensures led { (i : ℕ) (first starter : List ℕ) → on (held_in result self.new.stack) first starter
            ≡ rule_of i n (held_in depth self.old.stack) first starter }
        ensures keeps { result ≤ suc depth }
    {
        self.stack[depth as usize + 1] = line::device(n) as u8;
        deeper(depth, line::opens(n), line::is_give(n))
    }

    // The verb's own rule. That of a give is asked first, of every verb: so the test is no branch on the verb, and the
    // compiler can use what is given for the notes too. Place 0 has a number that no give names. A start that keeps its
    // rule is its job's starter.
    fn rule(&mut self, n: u32, at: &Standing, starter: &mut [u32; EACH_JOB]) -> Result<u32, Refusal>
        requires few { at.now.lines < max_lines }
        requires line { is_line (board_at true) n ≡ true }
        ensures led { (first : List ℕ) → next_by result self.new.stack first starter.new
            ≡ rule_of at.now.lines n (held_in at.now.depth self.old.stack) first starter.old }
        ensures keeps { IfOk result (λ depth. depth ≤ suc at.now.lines) }
        ensures long { length starter.new ≡ suc max_job }
    {
        if misgives(n, self.stack[at.depth as usize]) {
            return Err(Refusal::GiveWithoutTake(at.lines + 1));
        }
        if line::is_start(n) {
            let o = line::operand(n);
            let t = o as usize;
            if (line::job(n) < o) & (starter[t] == 0) {
                starter[t] = at.lines + 1;
                return Ok(at.depth);
            }
            return Err(Refusal::BadStart(at.lines + 1));
        }
        Ok(self.held_after(n, at.depth))
    }
}

// How many takes are open after the next line, or its refusal. The line is of the same job, or the next job's first:
// there is no branch on which of them it is. It is made part of each walk: as a call it takes a third more time a line.
#[inline(always)]
fn checked_line(
    n: u32,
    midday: bool,
    at: &Standing,
    takes: &mut Takes,
    notes: &mut Notes,
) -> Result<u32, Refusal>
    requires { at.now.lines < max_lines }
    ensures led { next_by result takes.new.stack notes.new.first notes.new.starter
        ≡ step_of (board_at midday) n at.now.lines at.now.job at.now.named at.now.early
        (held_in at.now.depth takes.old.stack)
        notes.old.first notes.old.starter }
    ensures keeps { IfOk result (λ depth. depth ≤ suc at.now.lines) }
    ensures flags { notes.new.again ≡ notes.old.again }
    ensures holdings { notes.new.holdings ≡ notes.old.holdings }
{
    at.misplaced(n, midday)?;
    at.misheld(n, &notes.starter)?;
    let j = line::job(n);
    let t = j as usize;
    notes.first[t] = choose(j == at.job, notes.first[t], at.lines + 1);
    takes.rule(n, &at.in_job(n), &mut notes.starter)
}

// ---- which lines take again what their job holds, or give such a take back

// What a line changes of the devices that its job holds: of a take the device, unless it is held; of a give what its
// take has added, which is `latest`.
#[tactic(auto, unfolding(crate::specs::Noting::change_of))]
fn change(n: u32, held: Set, latest: Set) -> Set
    ensures { result ≡ change_of n held latest }
{
    sets::union(sets::without(taken(n), held), sets::both(given(n), latest))
}

// Is that less than the line's verb says? Then it takes again what is held, or gives such a take back.
fn is_again(n: u32, changed: Set) -> bool
    ensures { result ≡ not (handled_by n == changed) }
{
    sets::union(taken(n), given(n)) != changed
}

// The next line's flag; and the devices held after it. `added` has for each open take what it has added to the devices
// held. Each line stores the devices held after it as its job's, so that those after the job's last line stay: there is
// no branch on whether it is the last.
fn note(n: u32, at: &Standing, added: &mut [Set; STACK_PLACES], notes: &mut Notes) -> Set
    requires few { at.now.lines < max_lines }
    requires its_job { job n ≤ max_job }
    ensures noted { NotesAs at.now.lines n at.now.job at.now.depth at.now.held added.old notes.old.again
        notes.old.holdings result added.new notes.new.again notes.new.holdings }
    ensures firsts { notes.new.first ≡ notes.old.first }
    ensures starters { notes.new.starter ≡ notes.old.starter }
{
    let here = at.in_job(n);
    let t = here.depth as usize;
    let c = change(n, here.held, added[t]);
    added[t + 1] = c;
    notes.again[at.lines as usize] = u8::from(is_again(n, c));
    let held = sets::differ(here.held, c);
    notes.holdings[line::job(n) as usize] = held;
    held
}

// ---- the whole plan

// The walk along the lines: the first line with a fault decides. Where there is none, the notes are the plan's: the two
// tables of the jobs; and the flags and what each job holds at the end, where they are asked for: to read or write a
// plan nobody needs them. A const parameter says which, and no closure: what its calls did would have to be told of all
// that it borrows. It stops before the first line over the limit, which has that fault whatever it says. Each of the
// two walks has one body for all callers: as a part of theirs it was timed a tenth slower.
#[inline(never)]
fn walk<const NOTING: bool>(plan: &[u32], midday: bool, notes: &mut Notes) -> Result<(), Refusal>
    requires { notes.old ≡ NO_NOTES }
    ensures walked { Walked (board_at midday) plan.now result notes.new }
    ensures noted { NOTING ≡ true → result ≡ Ok tt → NotesOf plan.now notes.new.again notes.new.holdings }
{
    let mut takes = Takes {
        stack: [FLOOR; STACK_PLACES],
    };
    let mut added = [sets::NONE; STACK_PLACES];
    let mut at = START;
    let stop = plan.len().min(MOST_LINES);
    for &n in &plan[..stop] {
        let depth = checked_line(n, midday, &at, &mut takes, notes)?;
        let held = if NOTING {
            note(n, &at, &mut added, notes)
        } else {
            sets::NONE
        };
        at.pass(n, depth, held);
    }
    if stop < plan.len() {
        return Err(Refusal::TooManyLines);
    }
    Ok(())
}

// The fault of the first line that has one, whatever comes after the last line.
pub fn lines_fault(plan: &[u32], midday: bool) -> Result<(), Refusal>
    ensures { result ≡ checked (first_fault (board_at midday) [] plan.now) }
{
    let mut notes = NO_NOTES;
    walk::<false>(plan, midday, &mut notes)
}

// Of a line so far and the line that starts a job without lines, the lower; 0 stands for no line here as it does in the
// notes, so that a word's test and no branch tells which it is.
fn lower(low: u32, first: u32, starter: u32) -> u32
    ensures { result ≡ lower_of low first starter }
{
    choose(
        (first == 0) & (starter != 0) & ((low == 0) | (starter < low)),
        starter,
        low,
    )
}

// Of a first line so far and that of a later job that no line starts, the first; 0 stands for no line.
fn earlier(low: u32, first: u32, starter: u32) -> u32
    ensures { result ≡ earlier_of low first starter }
{
    choose((low == 0) & (starter == 0), first, low)
}

// The tests after the last line, of every job but job 1, which no line starts: 5 where one that is started has no line,
// and where none is so, 6; at midday a job that no line starts is already running.
fn ends(notes: &Notes, midday: bool) -> Result<(), Refusal>
    ensures { EndsAs midday notes.now.first notes.now.starter result }
{
    let mut empty: u32 = 0;
    let mut never: u32 = 0;
    for (&first, &starter) in notes.first[2..].iter().zip(&notes.starter[2..]) {
        empty = lower(empty, first, starter);
        never = earlier(never, first, starter);
    }
    if empty != 0 {
        return Err(Refusal::BadStart(empty));
    }
    if (never != 0) & !midday {
        return Err(Refusal::NeverStarted(never));
    }
    Ok(())
}

// The fault of a plan; where it has none, its notes, if they are asked for.
fn whole<const NOTING: bool>(plan: &[u32], midday: bool, notes: &mut Notes) -> Result<(), Refusal>
    requires { notes.old ≡ NO_NOTES }
    ensures { WholeAs NOTING (board_at midday) plan.now result notes.new }
{
    walk::<NOTING>(plan, midday, notes)?;
    ends(notes, midday)
}

// The fault of a plan; where it has none, its notes are left in the lent ones.
pub fn scan(plan: &[u32], midday: bool, notes: &mut Notes) -> Result<(), Refusal>
    ensures { ScansAs (board_at midday) plan.now notes.old result notes.new }
{
    let lent = replace(notes, NO_NOTES);
    let fault = whole::<true>(plan, midday, notes);
    if fault.is_err() {
        *notes = lent;
    }
    fault
}

// The fault of a plan, if it has one.
pub fn fault(plan: &[u32], midday: bool) -> Result<(), Refusal>
    ensures { result ≡ checked (fault (board_at midday) plan.now) }
{
    let mut notes = NO_NOTES;
    whole::<false>(plan, midday, &mut notes)
}
