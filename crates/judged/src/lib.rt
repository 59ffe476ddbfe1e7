// Judging a text (02, request 1): a plan, the line --, and an order from elsewhere, one entry a line. What is printed
// for it goes into a lent buffer: the line `legal`, or the line of the refusal.
#![tactic(auto)]

ghost use Rattle.std.specs.Prelude.{◌≤◌, ◌<◌, ◌≡◌, ◌==◌, length};
ghost use Rattle.model.specs.Board.{board};
ghost use Rattle.model.specs.Line.{max_lines};
ghost use Rattle.model.specs.Lists.{same};
ghost use Rattle.model.specs.Text.{newline, lines_of};
ghost use Rattle.model.specs.Judged.{parting_line, plan_part, entry_part};
ghost use Rattle.model.specs.Judged.{judging, judged_by, judge_line, judge_printed, judge_text_refusal};
ghost use Rattle.fields.specs.Puts.{PutsAs};
ghost use Rattle.judged.specs.Entered.{entries_in, Gathers};

use board::MOST_LINES;
use model::Refusal;

// ---- the two parts of a text

// The line that parts, with its newline.
const PARTING: &[u8] = b"--\n";

// Does the byte end a line?
fn ends_line(b: u8) -> bool
    ensures { result ≡ (b == newline) }
{
    b == b'\n'
}

// Is it the line that parts?
#[tactic(auto, using(crate::proofs::Parting::same_bytes), unfolding(model::specs::Judged::parting_line))]
fn parts(line: &[u8]) -> bool
    ensures { result ≡ same line.now parting_line }
{
    line == PARTING
}

// The plan's part of a text, which ends at the first line that parts, and what stands behind that line; where no line
// parts, the plan's part is all of the text.
fn in_two(text: &[u8]) -> (&[u8], &[u8])
    ensures plan { result.0.now ≡ plan_part (lines_of text.now) }
    ensures entries { lines_of result.1.now ≡ entry_part (lines_of text.now) }
{
    let mut end = 0;
    for line in text.split_inclusive(|&b| ends_line(b)) {
        if parts(line) {
            return (&text[..end], &text[end + line.len()..]);
        }
        end += line.len();
    }
    (text, &[])
}

// ---- the entries

// As many entries decide as a plan has lines, and one more.
const ENTRIES: usize = MOST_LINES + 1;

// The entries of a text, one a line, into the front of the list, and how many. One that is no number, or over 1,024,
// is put as 0 and ends the list, since nothing after it can matter; so does a full list, which has more entries than a
// plan has lines.
fn gather(text: &[u8], entries: &mut [u16]) -> usize
    requires { max_lines < length entries.old }
    ensures { Gathers text.now result entries.new }
{
    let mut at = 0;
    for (n, entry) in entries.iter_mut().enumerate() {
        if text.len() <= at {
            return n;
        }
        let Some(number) = fields::number_at(text, at, b'\n', MOST_LINES as u32) else {
            *entry = 0;
            return n + 1;
        };
        *entry = number.value as u16;
        at = number.past;
    }
    entries.len()
}

// The judge's answer on a plan and the entries of a text.
fn judge_entries(plan: &[u32], text: &[u8]) -> Result<(), Refusal>
    requires { length plan.now ≤ max_lines }
    ensures { result ≡ judging board plan.now (entries_in text.now) }
{
    let mut entries = [0u16; ENTRIES];
    let n = gather(text, &mut entries);
    legal::judge(plan, &entries[..n])
}

// The judge's answer on a text: the plan's part is read, and the entries behind it are judged.
fn judge_text(text: &[u8]) -> Result<(), Refusal>
    ensures { result ≡ judged_by (judge_text_refusal board text.now) }
{
    let (plan_text, entry_text) = in_two(text);
    let mut plan = [0u32; MOST_LINES];
    let lines = reading::read(plan_text, &mut plan)? as usize;
    judge_entries(&plan[..lines], entry_text)
}

// ---- what is printed

// The line `legal`, or the line of the refusal.
#[tactic(auto, unfolding(model::specs::Judged::judge_line, model::specs::Judged::legal_line))]
fn put_answer(out: &mut [u8], answer: Result<(), Refusal>) -> usize
    ensures { PutsAs (judge_line answer) 0 out.old result out.new }
{
    match answer {
        Ok(()) => fields::put_word(out, 0, b"legal\n"),
        Err(r) => shows::put_refusal(out, r),
    }
}

// Room for the line of any refusal, with a place of ten digits. None that is printed here is so long: 16 bytes at most.
pub const ANSWER_ROOM: usize = 22;

// What the program prints for a text, into the front of the lent buffer: the number of bytes. Where they do not fit
// nothing is written, and the number is one over the room; with ANSWER_ROOM bytes they always fit.
#[tactic(auto, unfolding(model::specs::Judged::judge_printed))]
pub fn print(text: &[u8], out: &mut [u8]) -> usize
    ensures { PutsAs (judge_printed board text.now) 0 out.old result out.new }
{
    put_answer(out, judge_text(text))
}
