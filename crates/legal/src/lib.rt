// An order from elsewhere, judged entry by entry (02, request 1): is each the number of a line that may follow those
// before it? One pass, and as much work for one entry as for another, whatever the entries are. Lines are looked at as
// they count (02, request 2): one that takes again what its job holds, or gives such a take back, as a do. Of a plan
// that is taken up at midday (02, request 5) the held lines are done first, in a pass over its lines.
#![tactic(auto)]

ghost use Rattle.std.specs.Prelude.{true, [], ◌≡◌, ◌≤◌, length};
ghost use Rattle.model.specs.Line.{job, max_job, max_lines};
ghost use Rattle.model.specs.Board.{board, board_at};
ghost use Rattle.model.specs.Mate.{steps};
ghost use Rattle.model.specs.Sets.{empty};
ghost use Rattle.promises.specs.Judge.{JudgesAs};
ghost use Rattle.legal.specs.Steps.{started_by, set_after, StepsAs};
ghost use Rattle.legal.specs.Begun.{Standing, Tabled, BeginsAs, Ready};

use board::{EACH_JOB, Set};
use model::Refusal;
use plan::{NO_NOTES, Notes};

// Which lines are done, as far as it counts: the number of each job's next line, which is 0 until the job is started,
// and the devices that are held.
#[derive(Drop)]
struct State {
    next: [u32; EACH_JOB],
    held: Set,
}

impl State {
    ghost use Rattle.legal.specs.Steps.{is_next, passed};
    ghost use Rattle.legal.specs.Begun.{Running};

    // Nothing is done yet: a job that no line starts stands at its first line, and no other anywhere.
    fn run(&mut self, notes: &Notes)
        ensures next { Running notes.now.first notes.now.starter self.new.next }
        ensures held { self.new.held ≡ self.old.held }
    {
        for (j, next) in self.next.iter_mut().enumerate() {
            *next = choice::choose(notes.starter[j] == 0, notes.first[j], 0);
        }
    }

    // Is the line of number `n`, which counts as `l`, a legal next step? No branch stands between the two tests: every
    // entry of a legal order passes both.
    #[tactic(auto, unfolding(crate::specs::Steps::is_next))]
    fn is_next(&self, l: u32, n: u32) -> bool
        requires { job l ≤ max_job }
        ensures { result ≡ is_next self.now.next self.now.held l n }
    {
        let stands = self.next[line::job(l) as usize] == n;
        stands & !sets::member_if(line::is_take(l), self.held, line::operand(l))
    }

    // The line of number `n` is done: the next line of its job is the one after it, and that of a job that it starts is
    // the job's first. There is no branch on the verb, which cannot be foretold: another line starts job 0, which is
    // none. What is held after it is told by `held_after`.
    #[tactic(auto, unfolding(crate::specs::Steps::started_by, crate::specs::Steps::passed))]
    fn pass(&mut self, notes: &Notes, l: u32, n: u32)
        requires job { job l ≤ max_job }
        requires started { started_by l ≤ max_job }
        requires number { n ≤ max_lines }
        ensures next { self.new.next ≡ passed self.old.next notes.now.first l n }
        ensures held { self.new.held ≡ self.old.held }
    {
        self.next[line::job(l) as usize] = n + 1;
        let j = choice::choose(line::is_start(l), line::operand(l), 0) as usize;
        self.next[j] = notes.first[j];
    }
}

// The devices held after a line, as it counts: what it takes is held from now on, and what it gives is held no more.
fn held_after(held: Set, l: u32) -> Set
    ensures { result ≡ set_after l held }
{
    let handles = line::is_take(l) | line::is_give(l);
    sets::differ(held, sets::only_if(handles, line::operand(l)))
}

// ---- before the first step

// The held lines are done, which stand first in their jobs, each of a device that no other holds. The others are steps:
// how many there are is answered.
fn do_held(plan: &[u32], notes: &Notes, state: &mut State) -> usize
    requires tabled { Tabled true plan.now notes.now }
    requires standing { Standing plan.now [] state.old.next }
    requires held { state.old.held ≡ empty }
    ensures begins { BeginsAs plan.now state.new }
    ensures counted { result ≡ length (steps plan.now) }
{
    let mut steps = plan.len();
    for (i, &l) in plan.iter().enumerate() {
        if line::is_held(l) {
            state.pass(notes, l, (i + 1) as u32);
            state.held = sets::union(state.held, sets::only(line::device(l)));
            steps -= 1;
        }
    }
    steps
}

// How the plan stands before the first step, and how many steps there are. In the morning no line is held, and none is
// looked at.
fn begin(plan: &[u32], midday: bool, notes: &Notes, state: &mut State) -> usize
    requires tabled { Tabled midday plan.now notes.now }
    requires held { state.old.held ≡ empty }
    ensures begins { BeginsAs plan.now state.new }
    ensures counted { result ≡ length (steps plan.now) }
{
    state.run(notes);
    if midday {
        do_held(plan, notes, state)
    } else {
        plan.len()
    }
}

// ---- the entries

// How many entries from the front are legal next steps. What a line counts as is worked out once an entry, and all that
// follows goes by it: a take of what its job holds needs no free device, and the give of such a take frees none.
fn legal_steps(plan: &[u32], notes: &Notes, order: &[u16], state: &mut State) -> usize
    requires { Ready plan.now notes.now state.old }
    ensures { StepsAs plan.now order.now result }
{
    for (k, &e) in order.iter().enumerate() {
        let place = usize::from(e);
        if !(1..=plan.len()).contains(&place) {
            return k;
        }
        let l = line::plain(plan[place - 1], notes.again[place - 1] == 1);
        let n = u32::from(e);
        if !state.is_next(l, n) {
            return k;
        }
        state.pass(notes, l, n);
        state.held = held_after(state.held, l);
    }
    order.len()
}

// Is the list a legal order of the plan, which is one of the morning or taken up at midday? What is broken in the plan
// is refused first; then the list, where it first goes wrong, or where an entry is lacking.
fn judge_at(plan: &[u32], order: &[u16], midday: bool) -> Result<(), Refusal>
    ensures { JudgesAs (board_at midday) plan.now order.now result }
{
    let mut notes = NO_NOTES;
    plan::scan(plan, midday, &mut notes)?;
    let mut state = State {
        next: [0; EACH_JOB],
        held: sets::NONE,
    };
    let all = begin(plan, midday, &notes, &mut state);
    let steps = legal_steps(plan, &notes, order, &mut state);
    if (steps == all) & (steps == order.len()) {
        return Ok(());
    }
    Err(Refusal::IllegalStep((steps + 1) as u32))
}

// The judge of a plan of the morning (02, request 1).
pub fn judge(plan: &[u32], order: &[u16]) -> Result<(), Refusal>
    ensures { JudgesAs board plan.now order.now result }
{
    judge_at(plan, order, false)
}

// The judge of a plan that is taken up at midday (02, request 5): an order is of its steps.
pub fn resume_judge(plan: &[u32], order: &[u16]) -> Result<(), Refusal>
    ensures { JudgesAs (board_at true) plan.now order.now result }
{
    judge_at(plan, order, true)
}
