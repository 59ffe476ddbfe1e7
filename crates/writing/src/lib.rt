// Writing a plan as text (01, "The plan as text"; "Refusal numbers" as far as it is on writing).
#![tactic(auto)]

ghost use Rattle.std.specs.Prelude.{ℕ, ◌+◌, ◌≤◌, ◌<◌, ◌≡◌, length};
ghost use Rattle.model.specs.Board.{board};
ghost use Rattle.model.specs.Line.{at, job};
ghost use Rattle.model.specs.Text.{decimal, line_text, text_of};
ghost use Rattle.fields.specs.Puts.{PutsAs};
ghost use Rattle.promises.specs.Text.{WritesAs};
ghost use Rattle.writing.specs.Verbs.{Lays};

use board::MOST_BYTES;
use line::EACH_VERB;
use model::Refusal;

// ---- the verbs

// The longest verb has so many bytes.
const LONGEST: usize = 5;

// A verb: as many bytes as the longest has, the verb's first, and how many are the verb's.
#[derive(Clone, Copy)]
struct Verb {
    bytes: [u8; LONGEST],
    length: usize,
}

// The verbs, in the order of their numbers. A static is read where it lies, with no copy on the stack for each line.
static VERBS: [Verb; EACH_VERB] = [
    Verb {
        bytes: *b"do\0\0\0",
        length: b"do".len(),
    },
    Verb {
        bytes: *b"take\0",
        length: b"take".len(),
    },
    Verb {
        bytes: *b"give\0",
        length: b"give".len(),
    },
    Verb {
        bytes: *b"start",
        length: b"start".len(),
    },
    Verb {
        bytes: *b"held\0",
        length: b"held".len(),
    },
];

// ---- one line

// The verb of a number: as many bytes as the longest has, so that no branch asks which it is, which cannot be foretold.
// What stands behind a shorter verb is written over by what comes next.
fn put_verb(made: &mut [u8], at: usize, k: u32) -> usize
    requires { (k < 5) × (at + 5 ≤ length made.old) }
    ensures { Lays k at made.old result made.new }
{
    let verb = &VERBS[k as usize];
    fields::put_word(made, at, &verb.bytes);
    at + verb.length
}

// A number of at most three digits. A nought in front is put too, and the next digit takes its place, so that no branch
// asks how many there are.
fn put_small(made: &mut [u8], at: usize, n: u32) -> usize
    requires { (n ≤ 255) × (at + length (decimal n) ≤ length made.old) }
    ensures { PutsAs (decimal n) at made.old result made.new }
{
    made[at] = b'0' + (n / 100) as u8;
    let a = at + usize::from(99 < n);
    made[a] = b'0' + (n / 10 % 10) as u8;
    let b = a + usize::from(9 < n);
    made[b] = b'0' + (n % 10) as u8;
    b + 1
}

// A line: a job and a verb, each with its tab, and an operand with its newline.
fn put_line(made: &mut [u8], at: usize, l: u32) -> usize
    requires { (job l ≤ 255) × (at + length (line_text l) ≤ length made.old) }
    ensures { PutsAs (line_text l) at made.old result made.new }
{
    let j = line::job(l);
    let k = line::verb(l);
    let o = line::named(l);
    let a = put_small(made, at, j);
    made[a] = b'\t';
    let b = put_verb(made, a + 1, k);
    made[b] = b'\t';
    let c = put_small(made, b + 1, o);
    made[c] = b'\n';
    c + 1
}

// ---- the whole text

// The lines of a plan, one behind another.
fn make(plan: &[u32], made: &mut [u8]) -> usize
    requires { ((k : ℕ) → k < length plan.now → job (at plan.now k) ≤ 255)
        × (length (text_of plan.now) ≤ length made.old) }
    ensures { PutsAs (text_of plan.now) 0 made.old result made.new }
{
    let mut at = 0;
    for &l in plan {
        at = put_line(made, at, l);
    }
    at
}

// A packed plan into a lent buffer of bytes. It is made in full first, since a buffer that is too short is left as it
// was.
pub fn write(plan: &[u32], text: &mut [u8]) -> Result<u32, Refusal>
    ensures { WritesAs board plan.now text.old result text.new }
{
    plan::fault(plan, false)?;
    let mut made = [0; MOST_BYTES];
    let n = make(plan, &mut made);
    if text.len() < n {
        return Err(Refusal::ListTooShort(n as u32));
    }
    text[..n].copy_from_slice(&made[..n]);
    Ok(n as u32)
}
