// The line reader as one thin struct of the lent text and an offset (01, "Language forms in the code", its form for the
// line reader). It has no count of lines: the newlines before the offset give it, and then the reader that stands at a
// cursor, of the crate `lines`, makes the step.
#![tactic(auto)]

ghost use Rattle.std.specs.Prelude.{◌≡◌, ◌==◌, count_by, take};
ghost use Rattle.model.specs.Board.{board};
ghost use Rattle.model.specs.Text.{newline, line_from};
ghost use Rattle.promises.specs.ForC.{HandsOutForC};

use model::{Cursor, LineAnswer};

// ---- the step, on a plain text

// How many newlines stand before the offset, or in the whole text, if it ends earlier. It is no part of its
// caller: there this loop of few steps was timed a quarter slower.
#[inline(never)]
fn newlines_before(text: &[u8], offset: usize) -> usize
    ensures { result ≡ count_by (λ b. b == newline) (take offset text.now) }
{
    let mut lines = 0;
    for (i, &b) in text.iter().enumerate() {
        if i == offset {
            return lines;
        }
        lines += usize::from(b == b'\n');
    }
    lines
}

// The line at the offset, with the cursor past it; a refusal with its place; or the end.
fn line_from(text: &[u8], offset: usize) -> LineAnswer
    ensures { result ≡ line_from board text.now offset }
{
    let lines = newlines_before(text, offset);
    lines::next_line(text, Cursor { offset, lines })
}

// ---- the struct, and what is done with it

// The lent text, and the offset of the next line.
#[derive(Clone, Copy)]
pub struct Reader<'a> {
    pub text: &'a [u8],
    pub offset: usize,
}

impl<'a> Reader<'a> {
    // A reader that stands before the first line.
    pub fn new(text: &'a [u8]) -> Reader<'a>
        ensures { (result.text ≡ text.entry) × (result.offset ≡ 0) }
    {
        Reader { text, offset: 0 }
    }

    // What the reader hands out next.
    pub fn next(self) -> LineAnswer
        ensures { result ≡ line_from board self.entry.text.now self.entry.offset }
    {
        line_from(self.text, self.offset)
    }

    // The reader of the same text at another offset.
    pub fn moved(self, offset: usize) -> Reader<'a>
        ensures { (result.text ≡ self.entry.text) × (result.offset ≡ offset) }
    {
        Reader { offset, ..self }
    }
}

// ---- for every other caller

// The line that a reader of this text hands out at the offset.
pub fn line_at(text: &[u8], offset: usize) -> LineAnswer
    ensures { result ≡ line_from board text.now offset }
{
    Reader::new(text).moved(offset).next()
}

// For callers in C and Rust: the packed number of the line at the offset, 0 at the end, or a refusal's number times
// 2^32 plus its place.
#[unsafe(no_mangle)]
pub extern "C" fn gimmerskip_line(text: &[u8], offset: usize) -> u64
    ensures { HandsOutForC board text.now offset result }
{
    match line_at(text, offset) {
        LineAnswer::Line(n, _) => u64::from(n),
        LineAnswer::Refused(r) => refusals::in_one(r),
        LineAnswer::End => 0,
    }
}
