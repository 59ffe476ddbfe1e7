// The board and the limits of a plan, for all code (01, "The plan as text"). The definitions have them in
// model/specs/Board.antt and model/specs/Line.antt; a proof that puts one for the other fails where they differ. No
// other source has these numbers. DEVICES is the width of Set, and LAST_JOB that of Jobs: a house with another number
// of devices changes both. With a number that is no type's width, the words of `sets` need a mask besides.
#![tactic(auto)]

// How many devices there are, from 0 on.
pub const DEVICES: u32 = 32;

// A set of devices, device d being bit d.
pub type Set = u32;

// A list with an entry for each device has so many.
pub const EACH_DEVICE: usize = DEVICES as usize;

// The last job, the first being 1.
pub const LAST_JOB: u32 = 64;

// A set of jobs, job j being bit j - 1.
pub type Jobs = u64;

// A list with an entry for each job, and one for 0, which is no job's, has so many.
pub const EACH_JOB: usize = LAST_JOB as usize + 1;

// At most so many lines has a plan.
pub const MOST_LINES: usize = 1024;

// At most so many bytes has its text.
pub const MOST_BYTES: usize = 12288;
