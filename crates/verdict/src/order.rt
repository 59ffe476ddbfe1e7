// The order handed out (01), in constant work a line. A job goes on, without a look at the others, as long as its next
// line is no lasting take: it stays the lowest that can go on, since a job starts only higher ones. Every other line
// that stands next waits at a place, which it leaves to be done. Takes still to do are counted by lines as they count,
// so that a take of what its job holds is none (02, request 2).
ghost use Rattle.std.specs.Prelude.{◌≡◌, true, ◌+◌, ◌<◌, ◌≤◌, map, length, unwrap_or};
ghost use Rattle.std.specs.Bool.{then_some};
ghost use Rattle.std.specs.Option.{ForSome, ForNone};
ghost use Rattle.model.specs.Lists.{over};
ghost use Rattle.model.specs.Line.{line_number, max_lines};
ghost use Rattle.model.specs.WellFormed.{fault};
ghost use Rattle.model.specs.Handed.{handed};
ghost use Rattle.model.specs.Verdict.{no_order};
ghost use Rattle.model.specs.Board.{devices, board};
ghost use Rattle.theory.specs.Outer.{plain_at};
ghost use Rattle.plan.specs.Again.{again_flags};
ghost use Rattle.plan.specs.Jobs.{first_lines};
ghost use Rattle.rows.specs.Lasting.{lasting_flags};
ghost use Rattle.std.proofs.Math.Option.{none};
ghost use Rattle.verdict.specs.Waiting.{is_sound, all_places, place_at, followed, goes_on, as_line};
ghost use Rattle.verdict.specs.Waiting.{goes_after};
ghost use Rattle.verdict.specs.Waiting.{lasting_after, started_line, foremost, chosen, arrived, placed, settled};
ghost use Rattle.verdict.specs.Waiting.{counted, passed, replaced, added, tallied, scarce_below, CanRise, CanFall};

use crate::waiting::{PLACES, Waiting};
use board::{DEVICES, EACH_DEVICE, LAST_JOB, MOST_LINES, Set};
use plan::Notes;

// ---- the plan

// A plan without a fault, and what was found of it: in the notes the first line of each job and which lines take again,
// and which takes last. (The flags are bytes, as `plan` and `rows` have them.)
#[derive(Clone, Copy)]
pub struct Known<'a> {
    pub plan: &'a [u32],
    pub notes: &'a Notes,
    pub lasting: &'a [u8; MOST_LINES],
    pub ghost sound: { is_sound plan.now ≡ true },
    pub ghost few: { length plan.now ≤ max_lines },
    pub ghost firsts: { notes.now.first ≡ first_lines plan.now },
    pub ghost agains: { notes.now.again ≡ again_flags plan.now },
    pub ghost marks: { lasting.now ≡ lasting_flags plan.now },
}

impl Known<'_> {
    // Line `i`, as it counts.
    #[tactic(auto, using(crate::proofs::Steps::plain_is))]
    fn plain(&self, i: usize) -> u32
        requires { i < length self.now.plan.now }
        ensures { result ≡ plain_at self.now.plan.now i }
    {
        line::plain(self.plan[i], self.notes.again[i] == 1)
    }

    // The place of line `i`: a lasting take's is that of its device, past those of the jobs.
    #[tactic(auto, using(crate::proofs::Steps::place_steps))]
    fn place(&self, i: usize) -> u32
        requires { i < length self.now.plan.now }
        ensures value { result ≡ place_at self.now.plan.now i }
        ensures below { result < all_places }
    {
        let l = self.plan[i];
        choice::choose(
            self.lasting[i] == 1,
            LAST_JOB + line::operand(l),
            line::job(l) - 1,
        )
    }

    // The line after line `i`, if it is of the same job.
    #[tactic(auto, unfolding(crate::specs::Waiting::followed))]
    fn follower(&self, i: usize) -> Option<usize>
        requires { i < length self.now.plan.now }
        ensures in_plan { ForSome result (λ next. next < length self.now.plan.now) }
        ensures value { result ≡ then_some (followed self.now.plan.now i) (i + 1) }
    {
        let job = line::job(self.plan[i]);
        match self.plan.get(i + 1) {
            Some(next) if line::job(*next) == job => Some(i + 1),
            _ => None,
        }
    }

    // The line at which the job of line `i` goes on after it, if there is one and it is no lasting take.
    #[tactic(auto, unfolding(crate::specs::Waiting::goes_on))]
    fn goes_on(&self, i: usize) -> Option<usize>
        requires { i < length self.now.plan.now }
        ensures { result ≡ then_some (goes_on self.now.plan.now i) (i + 1) }
    {
        let next = self.follower(i)?;
        (self.lasting[next] == 0).then_some(next)
    }

    // The line at which a job goes on after the line done last: at first line 0. It is asked for where it is used, and
    // is not carried from line to line: there the next line's number waited for a flag, timed 3 ns a line more.
    #[tactic(auto, unfolding(crate::specs::Waiting::goes_after))]
    fn goes_on_after(&self, last: Option<usize>) -> Option<usize>
        requires { ForSome last (λ i. i < length self.now.plan.now) }
        ensures { result ≡ goes_after self.now.plan.now last }
    {
        match last {
            Some(i) => self.goes_on(i),
            None => Some(0),
        }
    }

    // The lasting take at which the job of line `i` stands after it, if it stands at one.
    #[tactic(auto, using(crate::proofs::Steps::after_is))]
    fn lasting_after(&self, i: usize) -> Option<usize>
        requires { i < length self.now.plan.now }
        ensures { result ≡ as_line self.now.plan.now (lasting_after self.now.plan.now i) }
    {
        let next = self.follower(i)?;
        (self.lasting[next] == 1).then_some(next)
    }

    // The first line of the job that line `i` starts, if it starts one.
    #[tactic(auto, using(crate::proofs::Steps::start_steps))]
    fn started(&self, i: usize) -> Option<usize>
        requires { i < length self.now.plan.now }
        ensures { result ≡ as_line self.now.plan.now (started_line self.now.plan.now i) }
    {
        let l = self.plan[i];
        if line::is_start(l) {
            Some(self.notes.first[line::operand(l) as usize] as usize - 1)
        } else {
            None
        }
    }

    // How many lines take each device.
    #[tactic(auto, using(crate::proofs::Steps::tally_steps))]
    fn tally(&self) -> [u32; EACH_DEVICE]
        ensures { result ≡ tallied self.now.plan.now (length self.now.plan.now) }
    {
        let mut counts = [0u32; EACH_DEVICE];
        for i in 0..self.plan.len() {
            count(&mut counts, self.plain(i));
        }
        counts
    }

    // The order of a plan that has one, into the front of the lent list.
    pub fn hand_out(&self, order: &mut [u16])
        requires orderly { no_order devices self.now.plan.now ≡ none }
        requires room { length self.now.plan.now ≤ length order.old }
        ensures { order.new ≡ over (map line_number (handed self.now.plan.now)) order.old }
    {
        // No line waits yet, and all are to do. (The lists are made where they stay: each copy would need its place on
        // the stack.)
        let mut standing = Standing {
            waiting: Waiting {
                ready: sets::NO_JOBS,
                awaited: sets::NONE,
                scarce: sets::NONE,
            },
            places: [0; PLACES],
            counts: self.tally(),
        };
        standing.waiting.scarce = scarce(&standing.counts);
        let mut last = None;
        for number in &mut order[..self.plan.len()] {
            let i = standing.goes_next(self.goes_on_after(last));
            *number = (i + 1) as u16;
            standing.pass(self, i);
            last = Some(i);
        }
    }
}

// ---- the counts

// A line, as it counts, is counted, if it is a take. There is no branch on the verb, which cannot be foretold: of
// another line nothing is counted, at whatever entry its operand falls.
#[tactic(auto, unfolding(crate::specs::Waiting::added))]
fn count(counts: &mut [u32; EACH_DEVICE], l: u32)
    requires { CanRise counts.old l }
    ensures { counts.new ≡ added counts.old l }
{
    let d = line::operand(l) % DEVICES;
    counts[d as usize] += u32::from(line::is_take(l));
}

// The devices that at most one line takes.
#[tactic(auto, using(crate::proofs::Counts::scarce_none, crate::proofs::Counts::scarce_more))]
fn scarce(counts: &[u32; EACH_DEVICE]) -> Set
    ensures { result ≡ scarce_below counts.now devices }
{
    let mut s = sets::NONE;
    for d in 0..DEVICES {
        s = sets::union(s, sets::only_if(counts[d as usize] <= 1, d));
    }
    s
}

// ---- the lines that stand next

// The lines that wait, with the line at each place, and how many lines still to do take each device. A plan has few
// lines: in 16 bits their places take the least of the stack.
#[derive(Drop)]
struct Standing {
    waiting: Waiting,
    places: [u16; PLACES],
    counts: [u32; EACH_DEVICE],
}

impl Standing {
    // The line that goes next: the one at which a job goes on, otherwise the foremost of those that wait, which leaves
    // its place.
    #[tactic(auto, unfolding(crate::specs::Waiting::choosing))]
    fn goes_next(&mut self, next: Option<usize>) -> usize
        requires { ForNone next (foremost self.old.waiting < all_places) }
        ensures line { result ≡ (chosen self.old.places self.old.waiting next).line }
        ensures waiting_after { self.new.waiting ≡ (chosen self.old.places self.old.waiting next).others }
        ensures places_after { self.new.places ≡ self.old.places }
        ensures counts_after { self.new.counts ≡ self.old.counts }
    {
        match next {
            Some(i) => i,
            None => {
                let s = self.waiting.foremost();
                self.waiting = self.waiting.leave_place(s);
                usize::from(self.places[s as usize])
            }
        }
    }

    // A line, if there is one, comes to its place.
    #[tactic(auto, unfolding(crate::specs::Waiting::arrived, crate::specs::Waiting::placed))]
    fn arrive(&mut self, known: &Known, line: Option<usize>)
        requires { ForSome line (λ i. i < length known.now.plan.now) }
        ensures waiting_after { self.new.waiting
            ≡ arrived known.now.plan.now self.old.waiting (unwrap_or line (length known.now.plan.now)) }
        ensures places_after { self.new.places
            ≡ placed known.now.plan.now self.old.places (unwrap_or line (length known.now.plan.now)) }
        ensures counts_after { self.new.counts ≡ self.old.counts }
    {
        if let Some(i) = line {
            let s = known.place(i);
            self.places[s as usize] = i as u16;
            self.waiting = self.waiting.take_place(s);
        }
    }

    // A line, as it counts, is done: if it is a take, one line less takes its device. There is no branch on the verb
    // here either: no device of another line comes to be scarce.
    #[tactic(auto, unfolding(crate::specs::Waiting::counted, crate::specs::Waiting::settled))]
    fn settle(&mut self, l: u32)
        requires { CanFall self.old.counts l }
        ensures waiting_after { self.new.waiting ≡ settled self.old.counts self.old.waiting l }
        ensures places_after { self.new.places ≡ self.old.places }
        ensures counts_after { self.new.counts ≡ counted self.old.counts l }
    {
        let takes = line::is_take(l);
        let d = line::operand(l) % DEVICES;
        let c = self.counts[d as usize];
        self.counts[d as usize] = c - u32::from(takes);
        self.waiting.scarce = sets::union(self.waiting.scarce, sets::only_if(takes & (c <= 2), d));
    }

    // Line `i`, which waits at no place, is done.
    #[tactic(auto, using(crate::proofs::Steps::pass_steps))]
    fn pass(&mut self, known: &Known, i: usize)
        requires in_plan { i < length known.now.plan.now }
        requires can_fall { CanFall self.old.counts (plain_at known.now.plan.now i) }
        ensures waiting_after { self.new.waiting ≡ passed known.now.plan.now self.old.counts self.old.waiting i }
        ensures places_after { self.new.places ≡ replaced known.now.plan.now self.old.places i }
        ensures counts_after { self.new.counts ≡ counted self.old.counts (plain_at known.now.plan.now i) }
    {
        self.settle(known.plain(i));
        self.arrive(known, known.lasting_after(i));
        self.arrive(known, known.started(i));
    }
}
