// Two-wire messages that write registers (paper 02, A6).
//
// In: a list of index and value pairs, as index, value, index, value, .. Out: in the lent buffer one message of three bytes for each pair, one
// straight after another; the rest of the buffer stays. Refused, in this order, and then nothing is written: 24 a list that ends within a
// pair, 28 an index above 127, 12 room.
// Cost: linear in the list.

#![tactic(auto)]

ghost use Rattle.std.specs.Prelude.{◌≡◌, false, ◌+◌, ◌≤◌, length};
ghost use Rattle.std.proofs.lemmas.List.Edits.{sets};
ghost use Rattle.lent_buffer.specs.Filled.{Gives};
ghost use Rattle.two_wire.specs.Messages.{message};
ghost use Rattle.two_wire_write.specs.Writing.{ends_within_pair, some_index_past, messages, joined, write_of};

use lent_buffer::Filled;
use refusal::Refusal;

// Writes the messages of the pairs to the front of the buffer: `write_of`. The answer is the length used, three bytes a pair.
pub fn write(pairs: &[u8], buffer: &mut [u8]) -> Filled
    ensures { Gives (write_of pairs.now (length buffer.old)) result buffer.old buffer.new }
{
    if pairs.len() % 2 == 1 {
        return Err(Refusal::SHORT_MESSAGE);
    }
    if some_index_past(pairs) {
        return Err(Refusal::PAST_LAST_REGISTER);
    }
    if buffer.len() / 3 < pairs.len() / 2 {
        return Err(Refusal::NO_ROOM);
    }
    let end = put_messages(pairs, buffer);
    Ok(end)
}

// Whether an index of the pairs is above the last.
fn some_index_past(pairs: &[u8]) -> bool
    requires { ends_within_pair pairs.now ≡ false }
    ensures { result ≡ some_index_past pairs.now }
{
    for pair in pairs.chunks_exact(2) {
        if two_wire::LAST_INDEX < pair[0] {
            return true;
        }
    }
    false
}

// Stores the messages of the pairs, and gives the place after them.
fn put_messages(pairs: &[u8], buffer: &mut [u8]) -> usize
    requires { (ends_within_pair pairs.now ≡ false) × (length (joined (messages pairs.now)) ≤ length buffer.old) }
    ensures { (result ≡ length (joined (messages pairs.now))) × (buffer.new ≡ sets buffer.old 0 (joined (messages pairs.now))) }
{
    let mut at: usize = 0;
    for pair in pairs.chunks_exact(2) {
        at = put_message(pair[0], pair[1], at, buffer);
    }
    at
}

// Stores one message at a place, and gives the place after it.
fn put_message(index: u8, value: u8, at: usize, buffer: &mut [u8]) -> usize
    requires { at + 3 ≤ length buffer.old }
    ensures { (result ≡ at + 3) × (buffer.new ≡ sets buffer.old at (message index value)) }
{
    buffer[at] = two_wire::WRITE_ADDRESS;
    buffer[at + 1] = index;
    buffer[at + 2] = value;
    at + 3
}
