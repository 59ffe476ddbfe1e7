// A refusal as it is printed (01, "Plans with their verdicts", its last part): one line, into the front of a lent
// buffer. Every program prints its refusals through this room.
#![tactic(auto)]

ghost use Rattle.model.specs.Printed.{printed_refusal};
ghost use Rattle.fields.specs.Puts.{PutsAs};

use model::Refusal;

// The word that a refusal's line begins with.
const REFUSED: [u8; 7] = *b"refused";

// A refusal's line, and the number of its bytes. Where it does not fit nothing is written, and the number is one over
// the room. Its values are put first, behind the place of the word: where they fit, so does the word.
pub fn put_refusal(out: &mut [u8], r: Refusal) -> usize
    ensures { PutsAs (printed_refusal r) 0 out.old result out.new }
{
    let past = fields::put_values(out, REFUSED.len(), &refusals::values(r));
    if out.len() < past {
        return past;
    }
    fields::put_word(out, 0, &REFUSED);
    past
}
