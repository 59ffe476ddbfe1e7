// The lines that wait, each at its place (01, "The order handed out"): two sets, so that the place that goes next is
// read off them.
ghost use Rattle.std.specs.Prelude.{◌≡◌};

use board::{EACH_DEVICE, Jobs, LAST_JOB, Set};

// A list with an entry for each place has so many: that of job j is at j - 1, and past the jobs come the devices.
pub const PLACES: usize = LAST_JOB as usize + EACH_DEVICE;

// The lines that wait: the jobs that can go on, the devices at whose lasting takes jobs stand, and the devices that at
// most one line still to do takes.
#[derive(Clone, Copy)]
pub struct Waiting {
    pub ready: Jobs,
    pub awaited: Set,
    pub scarce: Set,
}

impl Waiting {
    ghost use Rattle.verdict.specs.Waiting.{taken, vacated, foremost};

    // Place `s` is taken now.
    #[tactic(auto, unfolding(crate::specs::Waiting::taken, crate::specs::Waiting::with_set))]
    pub fn take_place(self, s: u32) -> Waiting
        ensures { result ≡ taken self s }
    {
        if s < LAST_JOB {
            Waiting {
                ready: sets::with_job(self.ready, s),
                ..self
            }
        } else {
            Waiting {
                awaited: sets::union(self.awaited, sets::only(s - LAST_JOB)),
                ..self
            }
        }
    }

    // Place `s` is left. (One function with the operation handed in would be no plainer than the two: it would need it
    // twice, for jobs and for devices, which are words of two types.)
    #[tactic(auto, unfolding(crate::specs::Waiting::vacated, crate::specs::Waiting::with_set))]
    pub fn leave_place(self, s: u32) -> Waiting
        ensures { result ≡ vacated self s }
    {
        if s < LAST_JOB {
            Waiting {
                ready: sets::without_job(self.ready, s),
                ..self
            }
        } else {
            Waiting {
                awaited: sets::without(self.awaited, sets::only(s - LAST_JOB)),
                ..self
            }
        }
    }

    // The place of the line that goes next, of those that wait.
    #[tactic(auto, using(sets::proofs::Members::lowest_at_most), unfolding(crate::specs::Waiting::foremost))]
    pub fn foremost(self) -> u32
        ensures { result ≡ foremost self }
    {
        let job = sets::lowest_job(self.ready);
        if job < LAST_JOB {
            job
        } else {
            LAST_JOB + sets::lowest(sets::both(self.awaited, self.scarce))
        }
    }
}
