// Fields of a text (01, "The plan as text", its words on numbers; "Plans with their verdicts", its printed lines): a
// decimal number of any range read at a place, and bytes, words and numbers put into a lent buffer. Nothing is asked of
// a caller. A put that does not fit puts nothing and answers a place from which no put fits, so that a chain of puts
// needs no test in between: the last place tells whether all of them fitted.
#![tactic(auto)]

ghost use Rattle.std.specs.Prelude.{◌+◌, ◌≤◌, ◌<◌, ◌^◌, [], ◌∷◌, ◌++◌, ◌≡◌, length};
ghost use Rattle.model.specs.Text.{decimal};
ghost use Rattle.fields.specs.Number.{number_at, longer_by};
ghost use Rattle.fields.specs.Puts.{PutsAs, place_after, value_text, values_text};

// ---- a number read

// The number that a field spells, with the place past the byte that ends the field.
#[derive(Clone, Copy, Debug, PartialEq, Eq)]
pub struct Number {
    pub value: u32,
    pub past: usize,
}

// The value that digits have with one byte more behind them, if it is at most `most`: a first digit spells its own, and
// no digit comes behind a nought.
#[tactic(auto, unfolding(crate::specs::Number::longer_by, model::specs::Text::is_digit))]
fn longer(value: Option<u32>, b: u8, most: u32) -> Option<u32>
    ensures { result ≡ longer_by value b most }
{
    if !b.is_ascii_digit() {
        return None;
    }
    let digit = u32::from(b - b'0');
    let longer = match value {
        None => digit,
        Some(0) => return None,
        Some(v) => v.checked_mul(10)?.checked_add(digit)?,
    };
    (longer <= most).then_some(longer)
}

// The decimal number that stands from a place up to the first byte `end`, if it is at most `most`. What is over it
// grows with every digit, so that the search ends there, however many follow. The loop goes by places, since the answer
// has one.
pub fn number_at(text: &[u8], from: usize, end: u8, most: u32) -> Option<Number>
    ensures { result ≡ number_at text.now from end most }
{
    let mut value: Option<u32> = None;
    for at in from..text.len() {
        let b = text[at];
        if b == end {
            return value.map(|value| Number {
                value,
                past: at + 1,
            });
        }
        value = Some(longer(value, b, most)?);
    }
    None
}

// ---- a place past what is put

// The place past so many bytes at a place; where they do not fit, one past the room.
fn place_after(room: usize, at: usize, count: usize) -> usize
    requires { room < 2 ^ 63 }
    ensures { result ≡ place_after room at count }
{
    match at.checked_add(count) {
        Some(past) if past <= room => past,
        _ => room + 1,
    }
}

// How many digits a number has.
fn digits(n: u64) -> usize
    ensures count { result ≡ length (decimal n) }
    ensures few { result ≤ 20 }
{
    n.checked_ilog10().unwrap_or(0) as usize + 1
}

// The place past numbers with their tabs and a newline.
fn values_after(room: usize, from: usize, values: &[u32]) -> usize
    requires { room < 2 ^ 63 }
    ensures { result ≡ place_after room from (length (values_text values.now)) }
{
    let mut at = from;
    for &n in values {
        at = place_after(room, at, 1 + digits(u64::from(n)));
    }
    place_after(room, at, 1)
}

// ---- bytes put

// A byte.
pub fn put_byte(out: &mut [u8], at: usize, b: u8) -> usize
    ensures { PutsAs (b ∷ []) at out.old result out.new }
{
    if out.len() <= at {
        return out.len() + 1;
    }
    out[at] = b;
    at + 1
}

// The bytes of a word.
pub fn put_word(out: &mut [u8], at: usize, word: &[u8]) -> usize
    ensures { PutsAs word.now at out.old result out.new }
{
    let past = place_after(out.len(), at, word.len());
    if past <= out.len() {
        out[at..past].copy_from_slice(word);
    }
    past
}

// The decimal digits of a number, the last one first.
pub fn put_number(out: &mut [u8], at: usize, n: u64) -> usize
    ensures { PutsAs (decimal n) at out.old result out.new }
{
    let past = place_after(out.len(), at, digits(n));
    if out.len() < past {
        return past;
    }
    let mut rest = n;
    for i in (at..past).rev() {
        out[i] = b'0' + (rest % 10) as u8;
        rest /= 10;
    }
    past
}

// A number and the byte that ends its field.
pub fn put_field(out: &mut [u8], at: usize, n: u64, end: u8) -> usize
    ensures { PutsAs (decimal n ++ (end ∷ [])) at out.old result out.new }
{
    let past = place_after(out.len(), at, digits(n) + 1);
    if out.len() < past {
        return past;
    }
    let b = put_number(out, at, n);
    put_byte(out, b, end)
}

// A tab and a number, where there is room for them.
fn put_value(out: &mut [u8], at: usize, n: u32) -> usize
    requires { at + length (value_text n) ≤ length out.old }
    ensures { PutsAs (value_text n) at out.old result out.new }
{
    let a = put_byte(out, at, b'\t');
    put_number(out, a, u64::from(n))
}

// Numbers, each behind a tab, and a newline: behind a word they make a printed line.
pub fn put_values(out: &mut [u8], at: usize, values: &[u32]) -> usize
    ensures { PutsAs (values_text values.now) at out.old result out.new }
{
    let past = values_after(out.len(), at, values);
    if out.len() < past {
        return past;
    }
    let mut place = at;
    for &n in values {
        place = put_value(out, place, n);
    }
    put_byte(out, place, b'\n')
}
