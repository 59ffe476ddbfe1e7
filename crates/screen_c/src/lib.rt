// The screens' entry for callers in C and Rust (01, "Plans with their verdicts", its last part). It stands apart from
// the library `screen`, which prints, since a crate is a library for other crates or an archive for C, and not both.
#![tactic(auto)]

ghost use Rattle.model.specs.Board.{board};
ghost use Rattle.promises.specs.Screen.{ScreensAs};

use board::MOST_LINES;

// The screens' entry: what the program prints for a text, into the lent buffer, and the number of bytes.
#[unsafe(no_mangle)]
pub extern "C" fn gimmerskip_order(text: &[u8], out: &mut [u8]) -> usize
    ensures { ScreensAs board text.now out.old result out.new }
{
    let mut plan = [0u32; MOST_LINES];
    let mut order = [0u16; MOST_LINES];
    screen::print(text, &mut plan, &mut order, out)
}
