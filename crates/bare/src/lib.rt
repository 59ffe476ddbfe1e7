// The circle search by itself, under a C name, so that it can be held to a second reading, timed, and its stack
// measured on any rows. No caller of the library needs it.
#![tactic(auto)]

ghost use Rattle.std.specs.Prelude.{◌≡◌};
ghost use Rattle.rows.specs.Where.{circles_of};

use board::{EACH_DEVICE, Set};

// The devices that lead back to themselves, for any rows: a list of one set a device.
#[unsafe(no_mangle)]
pub extern "C" fn bare_circles(rows: &[Set; EACH_DEVICE]) -> Set
    ensures { result ≡ circles_of rows.now }
{
    rows::circles(rows)
}
