// Sets of devices and of jobs (01, "Claims and rows"; "The order handed out" for jobs). No other source knows that they
// are words, or how wide. Every function answers for every word and number; a device past the board is in no set.
#![tactic(auto)]

ghost use Rattle.std.specs.Prelude.{◌≡◌, ◌<◌, ◌*◌, ◌%◌, ◌^◌, ℕ, Bool, cond, ◌&&◌, length, bit_and, bit_or, bit_xor};
ghost use Rattle.std.specs.Int.{from_bool};
ghost use Rattle.std.proofs.Common.{rules};
ghost use Rattle.model.specs.Lists.{up_from, those};
ghost use Rattle.model.specs.Sets.{empty, union, member, lowest_of};
ghost use Rattle.model.specs.Line.{max_job};
ghost use Rattle.model.specs.Board.{devices};
ghost use Rattle.sets.specs.Only.{only_of};
ghost use Rattle.sets.specs.Both.{both, differ, without};
ghost use Rattle.sets.specs.Word.{Makes, makes};

use board::{DEVICES, Jobs, LAST_JOB, Set};
use std::ops::{BitAnd, BitOr, BitXor, Shl};

// A word whose bits are the members of a set, counted from 0. What its operators make is stated of the numbers that the
// words are: the functions below are proved once, for devices and for jobs.
pub trait Word: Copy
    + From<bool>
    + BitAnd<Self, Output = Self>
    + BitOr<Self, Output = Self>
    + BitXor<Self, Output = Self>
    + Shl<u32, Output = Self> {
    // So many bits it has.
    const BITS: u32;

    ghost BITS: { ℕ };

    // The number that it is, which is no other word's.
    ghost number: { Self → ℕ };

    ghost number_tells: { (a b : Self) → number a ≡ number b → a ≡ b };

    // Its lowest member, or the number of its bits where it has none.
    fn lowest_member(self) -> u32
        ensures { result ≡ lowest_of BITS (number self) };

    ghost has_bits: { 0 < BITS };

    ghost and_law: { Makes number Self.can_bitand Self.bitand_gives bit_and };

    ghost or_law: { Makes number Self.can_bitor Self.bitor_gives bit_or };

    ghost xor_law: { Makes number Self.can_bitxor Self.bitxor_gives bit_xor };

    ghost flag_law: { (b : Bool) (r : Self) → Self.from_gives b r → number r ≡ from_bool b };

    ghost can_shift_law: { (a : Self) (n : ℕ) → n < BITS → Self.can_shl a n };

    ghost shift_law: { (a : Self) (n : ℕ) (r : Self) → Self.shl_gives a n r
        → number r ≡ number a * 2 ^ n % 2 ^ BITS };
}

impl Word for Set {
    const BITS: u32 = DEVICES;

    ghost BITS = { devices };

    ghost number = { λ s. s };

    ghost number_tells = { λ a b e. e };

    #[tactic(auto, using(theory::proofs::Sets::lowest_member))]
    fn lowest_member(self) -> u32 {
        u32::trailing_zeros(self)
    }

    ghost has_bits = { Prim.search rules };

    ghost and_law = { makes bit_and };

    ghost or_law = { makes bit_or };

    ghost xor_law = { makes bit_xor };

    ghost flag_law = { λ b r e. e };

    ghost can_shift_law = { λ a n h. h };

    ghost shift_law = { λ a n r e. e };
}

impl Word for Jobs {
    const BITS: u32 = LAST_JOB;

    ghost BITS = { max_job };

    ghost number = { λ s. s };

    ghost number_tells = { λ a b e. e };

    #[tactic(auto, using(theory::proofs::Sets::lowest_member))]
    fn lowest_member(self) -> u32 {
        u64::trailing_zeros(self)
    }

    ghost has_bits = { Prim.search rules };

    ghost and_law = { makes bit_and };

    ghost or_law = { makes bit_or };

    ghost xor_law = { makes bit_xor };

    ghost flag_law = { λ b r e. e };

    ghost can_shift_law = { λ a n h. h };

    ghost shift_law = { λ a n r e. e };
}

// ---- sets of either

// The set of one member, if it is put in; no member where the word has no bit of that number. There is no branch on
// whether it is put in.
fn one_if<W: Word>(put: bool, d: u32) -> W
    ensures { W.number result ≡ cond put (only_of W.BITS d) empty }
{
    W::from(put & (d < W::BITS)) << (d % W::BITS)
}

// The members of either set.
#[tactic(auto, unfolding(model::specs::Sets::union))]
pub fn union<W: Word>(a: W, b: W) -> W
    ensures { W.number result ≡ union (W.number a) (W.number b) }
{
    a | b
}

// The members of both sets.
#[tactic(auto, unfolding(crate::specs::Both::both))]
pub fn both<W: Word>(a: W, b: W) -> W
    ensures { W.number result ≡ both (W.number a) (W.number b) }
{
    a & b
}

// The members of one of the two sets alone.
#[tactic(auto, unfolding(crate::specs::Both::differ))]
pub fn differ<W: Word>(a: W, b: W) -> W
    ensures { W.number result ≡ differ (W.number a) (W.number b) }
{
    a ^ b
}

// The members of the first set that are not in the second.
#[tactic(auto, unfolding(crate::specs::Both::without))]
pub fn without<W: Word>(a: W, b: W) -> W
    ensures { W.number result ≡ without (W.number a) (W.number b) }
{
    differ(a, both(a, b))
}

// ---- devices

// No device.
pub const NONE: Set = 0;

// Every device of the board.
pub const EVERY: Set = Set::MAX;

// The set of one device, if it is put in; no device where the board has none of that number.
pub fn only_if(put: bool, d: u32) -> Set
    ensures { result ≡ cond put (only_of devices d) empty }
{
    one_if(put, d)
}

// The set of one device.
pub fn only(d: u32) -> Set
    ensures { result ≡ only_of devices d }
{
    only_if(true, d)
}

// Is the device in the set?
pub fn member(s: Set, d: u32) -> bool
    ensures { result ≡ member s d }
{
    member_if(true, s, d)
}

// Is it asked for, and in the set? One test of a word, so that there is no branch on whether it is asked for.
#[tactic(auto, unfolding(model::specs::Sets::empty), using(crate::proofs::Members::member_asked))]
pub fn member_if(asked: bool, s: Set, d: u32) -> bool
    ensures { result ≡ (asked && member s d) }
{
    both(s, only_if(asked, d)) != NONE
}

// How many devices the set has.
#[tactic(auto, using(theory::proofs::Sets::count_of_members))]
pub fn count(s: Set) -> u32
    ensures { result ≡ length (those (member s) (up_from 0 devices)) }
{
    s.count_ones()
}

// The lowest device of the set, or the number of devices where it has none.
pub fn lowest(s: Set) -> u32
    ensures { result ≡ lowest_of devices s }
{
    s.lowest_member()
}

// ---- jobs, counted from 0: j stands for job j + 1, and is bit j

// No job.
pub const NO_JOBS: Jobs = 0;

// The set with the job of bit j.
pub fn with_job(s: Jobs, j: u32) -> Jobs
    ensures { result ≡ union s (only_of max_job j) }
{
    union(s, one_if(true, j))
}

// The set without the job of bit j.
pub fn without_job(s: Jobs, j: u32) -> Jobs
    ensures { result ≡ without s (only_of max_job j) }
{
    without(s, one_if(true, j))
}

// The lowest job of the set, or the number of jobs where it has none.
pub fn lowest_job(s: Jobs) -> u32
    ensures { result ≡ lowest_of max_job s }
{
    s.lowest_member()
}
