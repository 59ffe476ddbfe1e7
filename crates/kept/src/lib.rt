// Rows kept beside the table (02, request 4): they are built once, every accepted move keeps them true, and a quick
// verdict reads them and hands out no order. What is lent may be another plan's, or nobody's: a move then still writes
// the rows that it concerns, by the edited plan and the table as it has become, and leaves all others.
#![tactic(auto)]

ghost use Rattle.std.specs.Prelude.{◌≡◌, ◌≢◌, true, not, ◌&&◌, ◌<◌, ◌≤◌, ◌^◌, ℕ, eqb, length, get_or};
ghost use Rattle.std.specs.Result.{IsOk};
ghost use Rattle.model.specs.Board.{devices, board};
ghost use Rattle.model.specs.Line.{job, at, max_job, max_lines};
ghost use Rattle.model.specs.Mate.{lasting as lasts};
ghost use Rattle.model.specs.Sets.{empty, member};
ghost use Rattle.model.specs.WellFormed.{fault};
ghost use Rattle.promises.specs.Kept.{BuildsAs, MovesKeptAs, QuickAs};
ghost use Rattle.plan.specs.Again.{again_flags};
ghost use Rattle.plan.specs.Checked.{checked};
ghost use Rattle.plan.specs.Jobs.{first_lines};
ghost use Rattle.kept.specs.Gathered.{GathersAs};
ghost use Rattle.kept.specs.Keeping.{rows_over, refused_by, held_with, operand_of, KeepsAs, decided};

use board::{DEVICES, EACH_DEVICE, EACH_JOB, MOST_LINES, Set};
use choice::choose;
use model::Refusal;
use plan::{NO_NOTES, Notes};
use rows::Held;

// ---- what is lent beside the plan

// Why lists of which one is too short are refused: a fault of the plan, 2 to 7; then 11 for the table, or the rows;
// otherwise it is the held set that is too short. It is no part of its callers, since there what it needs of the stack
// would be added to what they need where nothing is refused.
#[inline(never)]
fn no_room(plan: &[u32], sets: &[Set], rows: &[Set]) -> Refusal
    ensures { result ≡ refused_by (fault board plan.now) (length plan.now)
        (length sets.now) (length rows.now) }
{
    if let Err(r) = plan::fault(plan, false) {
        return r;
    }
    let n = plan.len();
    if sets.len() < n {
        return Refusal::ListTooShort(n as u32);
    }
    if rows.len() < EACH_DEVICE {
        return Refusal::ListTooShort(DEVICES);
    }
    Refusal::ListTooShort(1)
}

// The rows made, of the devices of a set, into the lent ones.
fn put_rows(these: Set, made: &[Set; EACH_DEVICE], rows: &mut [Set])
    requires { devices ≤ length rows.old }
    ensures { rows.new ≡ rows_over these made.now rows.old }
{
    for (d, row) in made.iter().enumerate() {
        rows[d] = choose(sets::member(these, d as u32), *row, rows[d]);
    }
}

// ---- building

// The table of a plan, its rows and the set of the devices held to the end, into the front of the lent lists; a refusal
// (2 to 7, 11) leaves all three as they were. (All three are slices with a length that is tested, also the rows and the
// held set, since callers in C lend them so.)
pub fn build(
    plan: &[u32],
    sets: &mut [Set],
    rows: &mut [Set],
    held: &mut [Set],
) -> Result<u32, Refusal>
    ensures { BuildsAs plan.now sets.old rows.old held.old
        result sets.new rows.new held.new }
{
    if sets.len() < plan.len() || rows.len() < EACH_DEVICE || held.is_empty() {
        return Err(no_room(plan, sets, rows));
    }
    let mut made = [sets::NONE; EACH_DEVICE];
    let holds = rows::tabled(plan, &mut made, sets)?;
    rows[..EACH_DEVICE].copy_from_slice(&made);
    held[0] = holds.held;
    Ok(plan.len() as u32)
}

// ---- moving

// The line at a position; past the plan's end 0, which is no line and of no job.
fn line_at(plan: &[u32], i: usize) -> u32
    ensures { result ≡ at plan.now i }
{
    plan.get(i).copied().unwrap_or(0)
}

// The device of the line with a number, counted from 1, if that is a take; 0 where the plan has no such line. (An
// Option would be no plainer: where there is no such line the move is refused, and nobody asks for the device.)
fn device_at(plan: &[u32], line: u32) -> u32
    ensures { result ≡ operand_of plan.now line }
{
    match line.checked_sub(1) {
        Some(i) => line::operand(line_at(plan, i as usize)),
        None => 0,
    }
}

// A held set with a device in it if it has a lasting take, otherwise without it.
#[tactic(auto, unfolding(crate::specs::Keeping::held_with))]
fn with_device(held: Set, lasting: Set, device: u32) -> Set
    ensures { result ≡ held_with held lasting device }
{
    let one = sets::only(device);
    sets::union(sets::without(held, one), sets::both(lasting, one))
}

// An edited plan with its rewritten table; notes, which were made of the plan before the edit; and the last line under
// the take, which is in the job in which the claim was moved. First lines and lines that take again are noted alike of
// both plans, and of every other job what it holds at its end.
#[derive(Clone, Copy)]
struct Edited<'a> {
    plan: &'a [u32],
    sets: &'a [Set],
    notes: &'a Notes,
    last: usize,
    ghost sound: { IsOk (checked (fault board plan.now)) },
    ghost few: { length plan.now ≤ max_lines },
    ghost room: { length plan.now ≤ length sets.now },
    ghost agains: { notes.now.again ≡ again_flags plan.now },
    ghost firsts: { notes.now.first ≡ first_lines plan.now },
    ghost among: { (k d : ℕ) → lasts plan.now k d ≡ true → job (at plan.now k) ≢ job (at plan.now last)
        → member (get_or notes.now.holdings (job (at plan.now k)) 0) d ≡ true },
}

impl Edited<'_> {
    // Has a job no lasting take? By what each job held at its end before the move, so this is not told of the job in
    // which a claim was moved.
    #[tactic(auto, unfolding(model::specs::Sets::empty))]
    fn none_lasts(&self, j: u32, moved: u32) -> bool
        requires { j ≤ max_job }
        ensures { result ≡ (not (eqb j moved) && eqb (get_or self.now.notes.now.holdings j 0) empty) }
    {
        (j != moved) & (self.notes.holdings[j as usize] == sets::NONE)
    }

    // The row of each device by the plan and its table, and the flags of the lasting takes, in one walk back from the
    // plan's end; the answer is the set of the devices held to the end. `behind` has the set of the line passed last.
    // The walk passes over the jobs that have no lasting take, each in one step, so it is no `for` over the lines.
    fn gather(&self, rows: &mut [Set; EACH_DEVICE], lasting: &mut [u8; MOST_LINES]) -> Set
        ensures { GathersAs self.now.plan.now self.now.sets.now result rows.new lasting.new }
    {
        *rows = [sets::NONE; EACH_DEVICE];
        *lasting = [0; MOST_LINES];
        let moved = line::job(line_at(self.plan, self.last));
        let mut passed = rows::NONE_PASSED;
        let mut behind = sets::NONE;
        let mut i = self.plan.len();
        while 0 < i {
            let l = self.plan[i - 1];
            let j = line::job(l);
            if self.none_lasts(j, moved) {
                i = self.notes.first[j as usize] as usize - 1;
            } else {
                i -= 1;
                let next = choose(j == passed.job, behind, sets::NONE);
                passed = rows::pass_line(passed, l, line::plain(l, self.notes.again[i] == 1));
                lasting[i] = u8::from(passed.lasts);
                rows::join_row(l, passed.lasts, next, rows);
                behind = self.sets[i];
            }
        }
        passed.holds.held
    }

    // Rows and held set kept true to the edited plan: of the old device, the new one, and those with a lasting take on
    // the way of the last line under the take, the row; of the old device and the new one the bit.
    fn keep(&self, old: u32, device: u32, rows: &mut [Set], held: &mut [Set])
        requires rows_fit { devices ≤ length rows.old }
        requires held_fits { 1 ≤ length held.old }
        ensures was_set { get_or held.old 0 0 < 2 ^ devices }
        ensures kept { KeepsAs self.now.plan.now self.now.notes.now.starter self.now.sets.now self.now.last old device
            rows.old held.old rows.new held.new }
    {
        let mut made = [sets::NONE; EACH_DEVICE];
        let mut lasting = [0; MOST_LINES];
        let to_end = self.gather(&mut made, &mut lasting);
        let on_way = way::flagged_devices(
            self.plan,
            self.sets,
            self.last,
            &self.notes.starter,
            &lasting,
        );
        let concerned = sets::union(sets::only(old), sets::union(sets::only(device), on_way));
        put_rows(concerned, &made, rows);
        held[0] = with_device(with_device(held[0], to_end, old), to_end, device);
    }
}

// Moves the claim of a line, by its number from 1, to a device, as `moving::move_claim` does, and keeps the rows and
// the held set. A refusal (2 to 7, 11 to 14) leaves everything that is lent as it was.
pub fn move_kept(
    plan: &mut [u32],
    sets: &mut [Set],
    rows: &mut [Set],
    held: &mut [Set],
    line: u32,
    device: u32,
) -> Result<u32, Refusal>
    ensures { MovesKeptAs plan.old sets.old rows.old held.old line
        device result plan.new sets.new rows.new held.new }
{
    if rows.len() < EACH_DEVICE || held.is_empty() {
        return Err(no_room(plan, sets, rows));
    }
    let mut notes = NO_NOTES;
    let old = device_at(plan, line);
    let moved = moving::move_through(plan, sets, line, device, &mut notes)?;
    let edited = Edited {
        plan,
        sets,
        notes: &notes,
        last: moved.stop - 1,
    };
    edited.keep(old, device, rows, held);
    Ok(moved.changed)
}

// ---- the quick verdict

// What is left of the quick verdict where the plan has no fault: 11; 9 and 10, each with the lowest device of its set;
// or how many devices are held to the end. (9 and 10 are asked for as in `verdict`, a room on which this one does not
// lean, by crates.txt.)
fn decide(rows: &[Set], holds: Held) -> Result<u32, Refusal>
    ensures { result ≡ decided rows.now holds.held holds.twice }
{
    let Some(first) = rows.first_chunk::<EACH_DEVICE>() else {
        return Err(Refusal::ListTooShort(DEVICES));
    };
    let d = sets::lowest(holds.twice);
    if d < DEVICES {
        return Err(Refusal::TwoLasting(d));
    }
    let e = sets::lowest(rows::circles(first));
    if e < DEVICES {
        return Err(Refusal::LeadsBack(e));
    }
    Ok(sets::count(holds.held))
}

// The verdict without an order: 2 to 7, 11 where the rows are too few, 9 by the plan, 10 by what the lent rows lead to;
// otherwise how many devices are held to the end.
pub fn quick(plan: &[u32], rows: &[Set]) -> Result<u32, Refusal>
    ensures { QuickAs plan.now rows.now result }
{
    let holds = rows::held_to_end(plan)?;
    decide(rows, holds)
}
