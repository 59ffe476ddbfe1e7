// One line as its packed number (01, "Packed" and the table of "The plan as text", and the held lines of 02, request
// 5): job, kind and operand. No other source takes a packed number apart or puts one together. Every function that
// takes one apart answers for every number.
#![tactic(auto)]

ghost use Rattle.std.specs.Prelude.{◌≡◌, ◌%◌, ◌^◌, false};
ghost use Rattle.std.specs.Range.{range_inclusive_start, range_inclusive_end, range_inclusive_exhausted};
ghost use Rattle.model.specs.Line.{pack, job, kind, operand, opens, is_held, is_take, is_give, is_start, device_of};
ghost use Rattle.model.specs.Line.{is_line};
ghost use Rattle.model.specs.Line.{verb_of, pack_verb, line_fits};
ghost use Rattle.model.specs.Board.{board, board_at};
ghost use Rattle.theory.specs.Outer.{plain};
ghost use Rattle.line.specs.Ranges.{lowest_operand, highest_operand};
ghost use Rattle.line.specs.Device.{device_bits, packed_bits};

use board::{DEVICES, LAST_JOB};
use choice::choose;
use std::ops::RangeInclusive;

// So many numbers has an operand room for, from 0 on.
pub const OPERANDS: u32 = 256;

// The highest of them: a number above is no operand.
pub const LAST_OPERAND: u32 = OPERANDS - 1;

// A list with an entry for each number that an operand can be has so many.
pub const EACH_OPERAND: usize = OPERANDS as usize;

// The kinds, and the verbs, which are the kinds and held, whose lines are of the kind of takes. They are numbers and no
// enum, since there is to be no branch on the verb: a word with two bytes a kind is shifted by them, other rooms look a
// list of verbs up by them, and the definitions of `model` have them by number.
pub const DO: u32 = 0;

pub const TAKE: u32 = 1;

pub const GIVE: u32 = 2;

pub const START: u32 = 3;

pub const HELD: u32 = 4;

// So many kinds of line there are.
const KINDS: u32 = START + 1;

// A list with an entry for each verb has so many.
pub const EACH_VERB: usize = HELD as usize + 1;

// So many numbers has a line of one job room for. The job stands above them, in the rest of the word.
const OF_A_JOB: u32 = KINDS * OPERANDS;

// So many jobs has the rest of the word room for.
const JOBS: u32 = 1 << 22;

// The line's job.
#[tactic(auto, unfolding(model::specs::Line::job))]
pub fn job(l: u32) -> u32
    ensures { result ≡ job l }
{
    l / OF_A_JOB
}

// The kind of its verb: do is 0, take 1, give 2, start 3.
#[tactic(auto, unfolding(model::specs::Line::kind))]
pub fn kind(l: u32) -> u32
    ensures { result ≡ kind l }
{
    l / OPERANDS % KINDS
}

// Its operand: an action, a device or a job.
#[tactic(auto, unfolding(model::specs::Line::operand))]
pub fn operand(l: u32) -> u32
    ensures { result ≡ operand l }
{
    l % OPERANDS
}

// Does it open a stretch, as takes and held lines do?
#[tactic(auto, unfolding(model::specs::Line::opens))]
pub fn opens(l: u32) -> bool
    ensures { result ≡ opens l }
{
    kind(l) == TAKE
}

// The operand of a held line is its device and this number; that of a take is below it.
const HELD_FROM: u32 = 128;

// The device of a line that takes, holds or gives one.
pub fn device(l: u32) -> u32
    ensures { result ≡ device_bits l }
{
    l % HELD_FROM
}

// A kind, and whether the operand is from that number on, as one number; and that of takes, and of held lines.
const HALF_KINDS: u32 = 2 * KINDS;

const TAKES: u32 = 2 * TAKE;

const HOLDS: u32 = TAKES + 1;

// Is it a take?
#[tactic(auto, using(crate::proofs::Ranges::take_by_half))]
pub fn is_take(l: u32) -> bool
    ensures { result ≡ is_take l }
{
    l / HELD_FROM % HALF_KINDS == TAKES
}

// Is it a held line?
#[tactic(auto, using(crate::proofs::Ranges::held_by_half))]
pub fn is_held(l: u32) -> bool
    ensures { result ≡ is_held l }
{
    l / HELD_FROM % HALF_KINDS == HOLDS
}

// The number of its verb: its kind, and of a held line 4.
#[tactic(auto, unfolding(model::specs::Line::verb_of))]
pub fn verb(l: u32) -> u32
    ensures { result ≡ verb_of l }
{
    choose(is_held(l), HELD, kind(l))
}

// What its operand names: an action, a device or a job.
#[tactic(auto, using(crate::proofs::Ranges::named_device))]
pub fn named(l: u32) -> u32
    ensures { result ≡ device_of l }
{
    choose(is_held(l), device(l), operand(l))
}

// Is it a give?
#[tactic(auto, unfolding(model::specs::Line::is_give))]
pub fn is_give(l: u32) -> bool
    ensures { result ≡ is_give l }
{
    kind(l) == GIVE
}

// Is it a start?
#[tactic(auto, unfolding(model::specs::Line::is_start))]
pub fn is_start(l: u32) -> bool
    ensures { result ≡ is_start l }
{
    kind(l) == START
}

// The highest operand of a do, of a take or give, and of a start.
const LAST_ACTION: u64 = LAST_OPERAND as u64;

const LAST_DEVICE: u64 = DEVICES as u64 - 1;

const LAST_STARTED: u64 = LAST_JOB as u64;

// For each kind its lowest operand, and above it its highest, a byte each; those of a do stand lowest in the word. A
// shift finds them: there is no branch on the kind, which cannot be foretold, and nothing to load.
const RANGES: u64 = LAST_ACTION << 8
    | LAST_DEVICE << 24
    | LAST_DEVICE << 40
    | 2 << 48
    | LAST_STARTED << 56;

// The operands of a kind, of two bits.
fn operands(k: u32) -> RangeInclusive<u32>
    ensures low { range_inclusive_start result ≡ lowest_operand (k % 4) }
    ensures high { range_inclusive_end result ≡ highest_operand (k % 4) }
    ensures whole { range_inclusive_exhausted result ≡ false }
{
    let r = ((RANGES >> (k % KINDS * 16)) % 65536) as u32;
    r % OPERANDS..=r / OPERANDS
}

// Are job, kind and operand those of a line that is not held?
#[tactic(auto, unfolding(model::specs::Line::line_fits))]
fn fits_kind(j: u32, k: u32, o: u32) -> bool
    ensures { result ≡ line_fits board j (k % 4) o }
{
    (1..=LAST_JOB).contains(&j) & operands(k).contains(&o)
}

// Is the number a line's, at midday or in the morning? A held line is tested as a take of its device; in the morning
// its operand is past those of takes.
#[tactic(auto, using(crate::proofs::Ranges::by_parts))]
pub fn is_line(l: u32, midday: bool) -> bool
    ensures { result ≡ is_line (board_at midday) l }
{
    fits_kind(
        job(l),
        kind(l),
        choose(is_held(l) & midday, device(l), operand(l)),
    )
}

// Are job, verb and operand a line's, at midday or in the morning? A held line has the operands of a take; in the
// morning there is none. They are three numbers and no struct: the one place that asks has just read them one by one,
// and packs them next.
#[tactic(auto, using(crate::proofs::Ranges::by_kind))]
pub fn fits(j: u32, v: u32, o: u32, midday: bool) -> bool
    ensures { result ≡ line_fits (board_at midday) j v o }
{
    fits_kind(j, v % KINDS + v / KINDS % 2, o) & ((v < KINDS) | ((v == HELD) & midday))
}

// The number of a job, a verb and what the operand names.
pub fn pack_verb(j: u32, v: u32, o: u32) -> u32
    ensures { result ≡ packed_bits j v o }
{
    let held = v / KINDS % 2;
    pack(j, v % KINDS + held, held * HELD_FROM + o % OPERANDS)
}

// The number of a job, a kind and an operand, each of as many bits as it has room for.
#[tactic(auto, unfolding(model::specs::Line::pack))]
pub fn pack(j: u32, k: u32, o: u32) -> u32
    ensures { result ≡ pack (j % 2 ^ 22) (k % 4) (o % 256) }
{
    j % JOBS * OF_A_JOB + k % KINDS * OPERANDS + o % OPERANDS
}

// The line with another operand, of eight bits.
#[tactic(auto, unfolding(model::specs::Line::pack, model::specs::Line::job, model::specs::Line::kind))]
pub fn with_operand(l: u32, o: u32) -> u32
    ensures { result ≡ pack (job l) (kind l) (o % 256) }
{
    pack(job(l), kind(l), o)
}

// What a line counts as (02, request 2): one that takes again what its job holds, or gives such a take back, as a do.
#[tactic(auto, unfolding(theory::specs::Outer::plain))]
pub fn plain(l: u32, again: bool) -> u32
    ensures { result ≡ plain again l }
{
    choose(again, pack(job(l), DO, operand(l)), l)
}
