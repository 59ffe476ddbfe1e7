// Moving a claim (01, "Moving a claim") to another device, with the give that belongs to the take, and joining anew the
// sets on the way and under the take. A take may be moved onto a device that its job holds, and away from one (02,
// request 2). After the tests of the plan all the work is along the way, or in the moved take's job.
#![tactic(auto)]

ghost use Rattle.std.specs.Prelude.{◌≡◌, true, false, ◌&&◌, ◌%◌, ◌^◌, ◌-◌, ◌≤◌, ◌<◌, IfSome, MatchOption};
ghost use Rattle.model.specs.Lists.{has};
ghost use Rattle.model.specs.Answers.{first_refusal};
ghost use Rattle.model.specs.Line.{is_take};
ghost use Rattle.model.specs.WellFormed.{held_there};
ghost use Rattle.model.specs.Move.{with_device, edited, asked_at, is_take_of};
ghost use Rattle.model.specs.Board.{devices, board};
ghost use Rattle.theory.specs.Remarked.{names, again_after, open_after};
ghost use Rattle.mates.specs.Span.{span_of, stop_of};
ghost use Rattle.plan.specs.Again.{again_flags};
ghost use Rattle.plan.specs.Checked.{checked};
ghost use Rattle.promises.specs.Move.{MovesAs};
ghost use Rattle.way.specs.Known.{Scanned, Known};
ghost use Rattle.moving.specs.Tested.{At, Take, tested_by, stale_refusal, last_tests, asked_tests};
ghost use Rattle.moving.specs.Tested.{TestsAs, RewritesAs};
ghost use Rattle.moving.specs.Marked.{Marked};
ghost use Rattle.moving.specs.Through.{MovesThrough};

use board::{DEVICES, MOST_LINES, Set};
use mates::Span;
use model::Refusal;
use plan::{NO_NOTES, Notes};
use way::Tables;

// ---- the lines that take again, once the take has another device

// Does the job of the line at i hold the device there? Going back in the job, the nearest line that takes, holds or
// gives the device decides, of those that count. What is asked of a line is joined by `&`, here and below: a branch on
// the verb alone could not be foretold.
fn job_holds(plan: &[u32], again: &[u8; MOST_LINES], i: usize, device: u32) -> bool
    requires { At plan.now i × (again.now ≡ again_flags plan.now) }
    ensures { result ≡ has device (held_there plan.now i) }
{
    let j = line::job(plan[i]);
    for k in (0..i).rev() {
        let l = line::plain(plan[k], again[k] == 1);
        if line::job(l) != j {
            return false;
        }
        if line::opens(l) & (line::device(l) == device) {
            return true;
        }
        if line::is_give(l) & (line::operand(l) == device) {
            return false;
        }
    }
    false
}

// Does it take or give the device?
#[tactic(auto, unfolding(theory::specs::Remarked::names))]
fn named(l: u32, device: u32) -> bool
    ensures { result ≡ names l device }
{
    (line::is_take(l) | line::is_give(l)) & (line::operand(l) == device)
}

// What a moved take exchanges: the device that it had for a new one; and whether it was the outermost take of the old
// one, which it then is no more.
#[derive(Clone, Copy)]
struct Exchange {
    old: u32,
    new: u32,
    fresh: bool,
}

impl Exchange {
    // Does a line under the take take again, or give such a take back, once the take has the new device? Lines of that
    // device do. Where the take was the outermost of its old device, lines of the old one go by how many of its takes
    // are open under the take.
    #[tactic(auto, unfolding(theory::specs::Remarked::again_after))]
    fn again_after(self, l: u32, was: bool, deep: usize) -> bool
        ensures { result ≡ again_after l was self.old self.new self.fresh deep }
    {
        if named(l, self.new) {
            return true;
        }
        if self.fresh & named(l, self.old) {
            if line::is_take(l) {
                return 1 <= deep;
            }
            return 2 <= deep;
        }
        was
    }

    // How many takes of the old device are open under the take after a line.
    #[tactic(auto, unfolding(theory::specs::Remarked::open_after))]
    fn open_after(self, l: u32, deep: usize) -> usize
        requires { (deep < 2 ^ 64 - 1) × ((self.fresh && names l self.old) ≡ true → is_take l ≡ false → 1 ≤ deep) }
        ensures { result ≡ open_after l self.old self.fresh deep }
    {
        if self.fresh & named(l, self.old) {
            if line::is_take(l) {
                return deep + 1;
            }
            return deep - 1;
        }
        deep
    }
}

// ---- the tests

// The position of the line with a number, if it is a take of the plan.
#[tactic(auto, unfolding(model::specs::Move::is_take_of))]
fn take_at(plan: &[u32], line: u32) -> Option<usize>
    ensures { MatchOption result (is_take_of plan.now line ≡ false)
        (λ i. (is_take_of plan.now line ≡ true) × (i ≡ line - 1)) }
{
    let i = line.checked_sub(1)? as usize;
    line::is_take(*plan.get(i)?).then_some(i)
}

// The refusal of a table in which a line has been found whose set is stale, by its position.
#[tactic(auto, unfolding(model::specs::Line::line_number))]
fn none_stale(found: Option<usize>) -> Result<(), Refusal>
    requires { IfSome found (λ k. k < 2 ^ 32 - 1) }
    ensures { result ≡ checked (stale_refusal found) }
{
    match found {
        Some(k) => Err(Refusal::StaleTable((k + 1) as u32)),
        None => Ok(()),
    }
}

// 14: a stale set on the way, or under the take. Else how far what the take takes is held.
fn fresh(plan: &[u32], sets: &[Set], i: usize, notes: &Notes) -> Result<Span, Refusal>
    requires { At plan.now i
        × Known plan.now sets.now notes.now.first notes.now.starter notes.now.again }
    ensures { result ≡ tested_by (first_refusal (last_tests plan.now sets.now i)) (span_of plan.now i) }
{
    let tables = Tables {
        again: &notes.again,
        first: &notes.first,
        starter: &notes.starter,
    };
    none_stale(way::stale_line(plan, sets, i, &tables))?;
    let span = mates::span_of(plan, i);
    none_stale(way::stale_under(plan, sets, i, span.stop(), &tables))?;
    Ok(span)
}

// The tests after those of the plan: 11, the table has a set for each line; 12, the line asked for is a take of the
// plan; 13, the device is on the board; then 14. (Line and device are two numbers as they come; a move is made of them
// when they have passed.)
fn asked(plan: &[u32], sets: &[Set], line: u32, device: u32, notes: &Notes) -> Result<Span, Refusal>
    requires { Scanned plan.now notes.now.first notes.now.starter notes.now.again }
    ensures { result
        ≡ tested_by (first_refusal (asked_tests devices plan.now sets.now line device))
        (span_of plan.now (asked_at line)) }
{
    let n = plan.len();
    if sets.len() < n {
        return Err(Refusal::ListTooShort(n as u32));
    }
    let Some(i) = take_at(plan, line) else {
        return Err(Refusal::NotATake(line));
    };
    if DEVICES <= device {
        return Err(Refusal::NoSuchDevice(device));
    }
    fresh(plan, sets, i, notes)
}

// All tests of a move, in their order: 2 to 7, 11, 12, 13, 14. Of a plan without a fault its notes are left.
fn tested(
    plan: &[u32],
    sets: &[Set],
    line: u32,
    device: u32,
    notes: &mut Notes,
) -> Result<Span, Refusal>
    ensures { TestsAs board plan.now sets.now line device notes.old result notes.new }
{
    plan::scan(plan, false, notes)?;
    asked(plan, sets, line, device, notes)
}

// ---- the move

// The line at i gets the device. (By its index: what a slice becomes after its `get_mut` is told to no proof.)
#[tactic(auto, unfolding(model::specs::Move::with_device))]
fn give_device(plan: &mut [u32], i: usize, device: u32)
    ensures { plan.new ≡ with_device plan.old (device % 256) i }
{
    if i < plan.len() {
        plan[i] = line::with_operand(plan[i], device);
    }
}

// A move that has passed its tests: the position of the take, the device that it gets, and how far what the take takes
// is held.
#[derive(Clone, Copy)]
struct Move {
    at: usize,
    device: u32,
    span: Span,
}

impl Move {
    ghost use Rattle.moving.specs.Move.{IsMoveOf};

    // The flags of the lines under the take, once it has the new device.
    fn mark_under(self, plan: &[u32], again: &mut [u8; MOST_LINES])
        requires { IsMoveOf plan.now self × (again.old ≡ again_flags plan.now) }
        ensures { Marked plan.now self.at self.device (stop_of self.span) again.new }
    {
        let old = line::operand(plan[self.at]);
        let fresh = (again[self.at] != 1) & (old != self.device);
        let exchange = Exchange {
            old,
            new: self.device,
            fresh,
        };
        let mut deep: usize = 0;
        for k in self.at + 1..self.span.stop() {
            let l = plan[k];
            let marked = exchange.again_after(l, again[k] == 1, deep);
            again[k] = u8::from(marked);
            deep = exchange.open_after(l, deep);
        }
    }

    // The flags of the plan once the take has the new device: the take and its give take again where the job holds that
    // device already; then the lines under the take.
    fn mark(self, plan: &[u32], again: &mut [u8; MOST_LINES])
        requires { IsMoveOf plan.now self × (again.old ≡ again_flags plan.now) }
        ensures { again.new ≡ again_flags (edited plan.now self.at self.device) }
    {
        let held = u8::from(job_holds(plan, again, self.at, self.device));
        self.mark_under(plan, again);
        again[self.at] = held;
        if let Span::Given(m) = self.span {
            again[m] = held;
        }
    }

    // Puts the device into the take and into the give that is its mate.
    fn edit(self, plan: &mut [u32])
        requires { self.span ≡ span_of plan.old self.at }
        ensures { plan.new ≡ edited plan.old self.at (self.device % 256) }
    {
        give_device(plan, self.at, self.device);
        if let Span::Given(m) = self.span {
            give_device(plan, m, self.device);
        }
    }

    // The edit, and the sets rewritten from the last line under the take back along the way; how many are another than
    // before.
    fn rewrite(self, plan: &mut [u32], sets: &mut [Set], notes: &mut Notes) -> u32
        requires { IsMoveOf plan.old self × (notes.old.again ≡ again_flags plan.old) }
        ensures { RewritesAs plan.old sets.old notes.old self.at self.device result plan.new sets.new notes.new }
    {
        self.mark(plan, &mut notes.again);
        self.edit(plan);
        let tables = Tables {
            again: &notes.again,
            first: &notes.first,
            starter: &notes.starter,
        };
        way::mend_way(plan, sets, self.span.stop() - 1, &tables) as u32
    }
}

// What a move tells a caller that keeps more than the table: how many sets are another than before, and the position
// before which the lines under the take end.
#[derive(Clone, Copy, Debug, PartialEq, Eq)]
pub struct Moved {
    pub changed: u32,
    pub stop: usize,
}

// The move, with what it has worked out on the way left in the lent notes: as the edited plan has it, the first line
// of each job, the line that starts it, and the flags of the lines that take again; as the plan had it before, what
// each job holds at its end. Where the plan has a fault, they are left as they were.
pub fn move_through(
    plan: &mut [u32],
    sets: &mut [Set],
    line: u32,
    device: u32,
    notes: &mut Notes,
) -> Result<Moved, Refusal>
    ensures { MovesThrough board plan.old sets.old line device notes.old result plan.new sets.new notes.new }
{
    let span = tested(plan, sets, line, device, notes)?;
    let at = (line - 1) as usize;
    let changed = Move { at, device, span }.rewrite(plan, sets, notes);
    Ok(Moved {
        changed,
        stop: span.stop(),
    })
}

// Moves the claim of a line, by its number from 1, to a device: the take and its give get the device, and the sets on
// the way and under the take are joined anew. A refusal (2 to 7, 11 to 14) leaves plan and table as they were.
pub fn move_claim(
    plan: &mut [u32],
    sets: &mut [Set],
    line: u32,
    device: u32,
) -> Result<u32, Refusal>
    ensures { MovesAs board plan.old sets.old line device result plan.new sets.new }
{
    let mut notes = NO_NOTES;
    let moved = move_through(plan, sets, line, device, &mut notes)?;
    Ok(moved.changed)
}
