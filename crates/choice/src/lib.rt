// One of two values, where the code is to have no branch: a branch on what comes in no order cannot be foretold.
#![tactic(auto)]

ghost use Rattle.std.specs.Prelude.{◌≡◌, if◌then◌else◌};

use std::hint::select_unpredictable;

// The first value, or the other. Where it stands for a branch, the processor has nothing to foretell.
pub fn choose<T: Copy>(first: bool, a: T, b: T) -> T
    ensures { result ≡ (if first then a else b) }
{
    select_unpredictable(first, a, b)
}
