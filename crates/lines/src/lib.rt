// The lines of a text (01, "The plan as text"): one line from left to right, the line reader with a cursor, and the
// lines of a text gathered one after another.
#![tactic(auto)]

ghost use Rattle.std.specs.Prelude.{◌+◌, ◌%◌, ◌≤◌, ◌<◌, ◌≡◌, List, ℕ, length, take, drop, set, slice_index};
ghost use Rattle.model.specs.Board.{board_at, board};
ghost use Rattle.model.specs.Text.{newline};
ghost use Rattle.promises.specs.Text.{HandsOutAs};
ghost use Rattle.fields.specs.Number.{number_at};
ghost use Rattle.lines.specs.Fields.{joined_by};
ghost use Rattle.lines.specs.Verbs.{as_number, highest_of, entry_of, all_entries, all_words, verb_at};
ghost use Rattle.lines.specs.Lines.{SpeltAt, handed_at};
ghost use Rattle.lines.specs.Gathered.{GathersAs};

use board::{MOST_BYTES, MOST_LINES};
use choice::choose;
use fields::Number;
use line::{EACH_VERB, LAST_OPERAND, OPERANDS};
use model::{Cursor, LineAnswer, Refusal};

// ---- bytes

// The byte at a place; past the end of the text there is nought.
fn byte_at(text: &[u8], at: usize) -> u8
    ensures { result ≡ slice_index text.now at }
{
    text.get(at).copied().unwrap_or(0)
}

// ---- an operand

// The byte that ends a line.
const LINE_END: u8 = b'\n';

// The value v with one digit more; past every operand and job, if the byte is none. The last four bits of a digit's
// byte are its value.
fn joined(v: u32, b: u8) -> u32
    requires { v ≤ 9999 }
    ensures { result ≡ joined_by v b }
{
    choose(b.is_ascii_digit(), v * 10 + u32::from(b) % 16, OPERANDS)
}

// The operand at the place, with the newline behind it, as `fields` reads it. It has up to three digits; the values
// with one, two and three are all worked out, and the byte that ends the line picks, so that no branch asks how many
// there are. A job mostly has as many as the job before it, which branches can foretell: `fields` itself reads it.
fn operand_at(text: &[u8], from: usize) -> Option<Number>
    requires { from ≤ length text.now }
    ensures { result ≡ number_at text.now from newline 255 }
{
    let rest = &text[from..];
    let b = byte_at(rest, 1);
    let c = byte_at(rest, 2);
    let one = joined(0, byte_at(rest, 0));
    // No digit comes behind a nought.
    let two = joined(choose(one == 0, OPERANDS, one), b);
    let three = joined(two, c);
    let value = choose(b == LINE_END, one, choose(c == LINE_END, two, three));
    let digits: usize = choose(b == LINE_END, 1, choose(c == LINE_END, 2, 3));
    if LAST_OPERAND < value {
        return None;
    }
    if byte_at(rest, digits) != LINE_END {
        return None;
    }
    Some(Number {
        value,
        past: from + digits + 1,
    })
}

// ---- the verbs

// The first eight bytes of a text; past its end there is nought. They are put one by one: a copy would call `memcpy`,
// and the line reader does without what stands outside.
fn put_few(bytes: &mut [u8; 8], text: &[u8])
    ensures { (k : ℕ) → k < 8 → slice_index bytes.new k ≡ slice_index text.now k }
{
    for k in 0..8 {
        bytes[k] = byte_at(text, k);
    }
}

// The same of what a text ends with, to which few lines come: it is kept apart from what every line goes through.
#[inline(never)]
fn put_last(bytes: &mut [u8; 8], text: &[u8])
    ensures { (k : ℕ) → k < 8 → slice_index bytes.new k ≡ slice_index text.now k }
{
    put_few(bytes, text);
}

// The eight bytes at the place as one number, the first lowest; past the end of the text there is nought.
fn eight_bytes(text: &[u8], at: usize) -> u64
    requires { at ≤ length text.now }
    ensures { result ≡ as_number (take 8 (drop at text.now)) }
{
    let rest = &text[at..];
    if let Some(bytes) = rest.first_chunk() {
        return u64::from_le_bytes(*bytes);
    }
    let mut bytes = [0; 8];
    put_last(&mut bytes, rest);
    u64::from_le_bytes(bytes)
}

// The bytes of a word, which has fewer, as one number in the same way.
fn few_bytes(word: &[u8]) -> u64
    ensures { result ≡ as_number (take 8 word.now) }
{
    let mut bytes = [0; 8];
    put_few(&mut bytes, word);
    u64::from_le_bytes(bytes)
}

// So many places has a letter in the alphabet, as the last five bits of its byte tell them.
const LETTERS: usize = 32;

// What a letter tells of the verb that begins with it: how long it is, with its tab, and its number. The length is
// nought for a letter that begins none.
#[derive(Clone, Copy)]
struct Entry {
    length: u8,
    verb: u8,
}

// What is listed of the verbs: by the place of their first letter, of which no two have the same, and by their number
// their bytes, as the highest of a number of eight. It is small, since the line reader makes it for each line.
#[derive(Drop)]
struct VerbTable {
    by_first: [Entry; LETTERS],
    words: [u64; EACH_VERB],
    ghost first: { by_first ≡ all_entries },
    ghost bytes: { words ≡ all_words },
}

// A verb for both lists. Its tab is its last byte.
fn list_verb(by_first: &mut [Entry; LETTERS], words: &mut [u64; EACH_VERB], verb: u32, word: &[u8])
    requires { (verb < 5) × (1 ≤ length word.now) × (length word.now ≤ 7) }
    ensures first { by_first.new ≡ set by_first.old (slice_index word.now 0 % 32) (entry_of verb word.now) }
    ensures bytes { words.new ≡ set words.old verb (highest_of word.now) }
{
    by_first[usize::from(word[0]) % LETTERS] = Entry {
        length: word.len() as u8,
        verb: verb as u8,
    };
    words[verb as usize] = few_bytes(word) << (64 - word.len() * 8);
}

impl VerbTable {
    // The verbs, one a line, in the order of their numbers.
    fn new() -> VerbTable {
        let mut by_first = [Entry { length: 0, verb: 0 }; LETTERS];
        let mut words = [0; EACH_VERB];
        list_verb(&mut by_first, &mut words, line::DO, b"do\t");
        list_verb(&mut by_first, &mut words, line::TAKE, b"take\t");
        list_verb(&mut by_first, &mut words, line::GIVE, b"give\t");
        list_verb(&mut by_first, &mut words, line::START, b"start\t");
        list_verb(&mut by_first, &mut words, line::HELD, b"held\t");
        VerbTable { by_first, words }
    }

    // The number of the verb at the place, with the place past its tab. Its first byte tells which it can be, and then
    // all its bytes are compared at once: there is no branch on the verb, which cannot be foretold.
    fn verb_at(&self, text: &[u8], at: usize) -> Option<Number>
        ensures { result ≡ verb_at at (drop at text.now) }
    {
        let first = *text.get(at)?;
        let entry = self.by_first[usize::from(first) % LETTERS];
        let length = usize::from(entry.length);
        if length == 0 {
            return None;
        }
        if eight_bytes(text, at) << (64 - length * 8) != self.words[usize::from(entry.verb)] {
            return None;
        }
        Some(Number {
            value: u32::from(entry.verb),
            past: at + length,
        })
    }

    // The packed number of the line at the place, with the place past its newline: a job and a verb, each with its tab,
    // and an operand. Lines that hold a device are lines at midday alone.
    fn line_at(&self, text: &[u8], from: usize, midday: bool) -> Option<Number>
        ensures { SpeltAt (board_at midday) text.now from result }
    {
        let job = fields::number_at(text, from, b'\t', LAST_OPERAND)?;
        let verb = self.verb_at(text, job.past)?;
        let operand = operand_at(text, verb.past)?;
        if !line::fits(job.value, verb.value, operand.value, midday) {
            return None;
        }
        Some(Number {
            value: line::pack_verb(job.value, verb.value, operand.value),
            past: operand.past,
        })
    }

    // What the reader hands out at a cursor.
    fn handed(&self, text: &[u8], c: Cursor, midday: bool) -> LineAnswer
        ensures { result ≡ handed_at (board_at midday) text.now c.offset c.lines }
    {
        if text.len() <= c.offset {
            return LineAnswer::End;
        }
        if MOST_LINES <= c.lines {
            return LineAnswer::Refused(Refusal::TooManyLines);
        }
        let lines = c.lines + 1;
        match self.line_at(text, c.offset, midday) {
            Some(line) => LineAnswer::Line(
                line.value,
                Cursor {
                    offset: line.past,
                    lines,
                },
            ),
            None => LineAnswer::Refused(Refusal::Malformed(lines as u32)),
        }
    }
}

// ---- the reader

// The line at the cursor, with the cursor past it; a refusal with its place; or the end.
pub fn next_line(text: &[u8], c: Cursor) -> LineAnswer
    ensures { HandsOutAs board text.now c result }
{
    if MOST_BYTES < text.len() {
        return LineAnswer::Refused(Refusal::TextTooLong);
    }
    VerbTable::new().handed(text, c, false)
}

// ---- the lines of a text

// The refusal that the reader came to, behind so many lines.
#[derive(Clone, Copy, Debug, PartialEq, Eq)]
pub struct Stopped {
    pub lines: usize,
    pub refusal: Refusal,
}

// The lines of a text, one after another from the front of the lent list on, until the end, and how many; or until a
// refusal. How long the text is, is not asked here.
pub fn gather(text: &[u8], midday: bool, lines: &mut [u32; MOST_LINES]) -> Result<usize, Stopped>
    ensures { GathersAs (board_at midday) text.now lines.old result lines.new }
{
    let verbs = VerbTable::new();
    let mut c = Cursor {
        offset: 0,
        lines: 0,
    };
    // Nothing is counted: the reader hands out the next cursor, and the answer has three cases.
    loop {
        match verbs.handed(text, c, midday) {
            LineAnswer::Line(l, next) => {
                lines[c.lines] = l;
                c = next;
            }
            LineAnswer::Refused(refusal) => {
                return Err(Stopped {
                    lines: c.lines,
                    refusal,
                });
            }
            LineAnswer::End => {
                return Ok(c.lines);
            }
        }
    }
}
