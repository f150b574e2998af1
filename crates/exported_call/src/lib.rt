// What the exported crates share: calls on what a caller lends, answered in numbers.
//
// A call that fills a lent buffer is answered 0 or the refusal, and how much of the buffer it filled goes to a place that the caller lends too, 0
// with a refusal. A call on a state in lent bytes is answered by a number. specs/LentCall.antt has a sentence for each.

#![tactic(auto)]

ghost use Rattle.std.specs.Prelude.{◌≡◌};
ghost use Rattle.exported_call.specs.LentCall.{written_number, written_count, bit_of};

use lent_buffer::Filled;

// 0 or the refusal; the length goes to its place.
pub fn number_written(filled: Filled, written: &mut usize) -> u8
    ensures { (result ≡ written_number filled) × (written.new ≡ written_count filled) }
{
    match filled {
        Ok(n) => {
            *written = n;
            0
        }
        Err(refusal) => {
            *written = 0;
            refusal.0
        }
    }
}

// A bool as a byte.
pub fn bit(b: bool) -> u8
    ensures { result ≡ bit_of b }
{
    if b {
        return 1;
    }
    0
}
