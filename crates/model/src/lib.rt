// The refusals, and what the line reader answers. Every other entry answers a `Result`: `Ok` with what it counts
// (reading and the table the lines, writing the bytes, the verdict the devices that stay held, the move the lines that
// got another set; the judge counts nothing), or `Err` with the refusal. No code stands here: what each entry answers,
// for every input, is defined in specs/, and specs/Answers.antt lists the number and the values of each case.
#![tactic(auto)]

// A refusal, one case for each number of 01, and of 02 as far as it is built, in their order; 8 is given no more (02,
// request 2). A case holds the place, unless that is fixed: 0 for 1, and 1,025 for 3.
#[derive(Clone, Copy, Debug, PartialEq, Eq)]
pub enum Refusal {
    // 1: the text has over 12,288 bytes
    TextTooLong,
    // 2: the line is malformed, lacks its newline, or is the packed number of no line
    Malformed(u32),
    // 3: there is a line 1,025
    TooManyLines,
    // 4: the line's job does not follow on
    JobOutOfSequence(u32),
    // 5: the line starts a job that is not higher, is started already, or has no lines
    BadStart(u32),
    // 6: no line starts the job whose first line this is; not at midday
    NeverStarted(u32),
    // 7: the line gives a device that is not the latest its job still holds
    GiveWithoutTake(u32),
    // 9: two lines keep this device to the end: lasting takes, or one of them a held line without a give
    TwoLasting(u32),
    // 10: this device leads back to itself; or none does, and this is the lowest that is held while held lines hinder
    LeadsBack(u32),
    // 11: a lent list has too little room; it needs this length
    ListTooShort(u32),
    // 12: the line asked for is no take of the plan
    NotATake(u32),
    // 13: there is no such device
    NoSuchDevice(u32),
    // 14: the stored set of this line is stale
    StaleTable(u32),
    // 15: in an order from elsewhere the entry at this position cannot come there, or is missing
    IllegalStep(u32),
    // 16: the line holds a device that an earlier line holds
    HeldTwice(u32),
    // 17: the line is held after another verb, or in a job that is started
    HeldLate(u32),
}

// Where the line reader stands: the offset of the next line, and how many lines were handed out before it.
#[derive(Clone, Copy, Debug, PartialEq, Eq)]
pub struct Cursor {
    pub offset: usize,
    pub lines: usize,
}

// The line reader's: the line's packed number with the next cursor, a refusal, or the end.
#[derive(Clone, Copy, Debug, PartialEq, Eq)]
pub enum LineAnswer {
    Line(u32, Cursor),
    Refused(Refusal),
    End,
}
