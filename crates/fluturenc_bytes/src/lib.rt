// Feeding packed bytes, as an 8-wire bus and a capture file have them: what a tool in C or Rust calls where it does not take nibbles apart itself.
//
// In: a reader's state (crate exported_state has its layout), bytes, a place among their nibbles and a line buffer. Out: what fluturenc_feed of crate
// fluturenc gives of the nibbles from that place on, the high one of each byte first: the answer as one number, and how many nibbles were taken, so
// that the next call goes on at the place plus that. From a place past the end on there are no nibbles. Refused: 11, 12, in this order, with
// nothing taken; never 10. No two slices of a call may overlap, and nothing is asked of what they hold.
// Cost: linear in the nibbles taken. For C: c/fluturenc.h.
//
// Crate fluturenc_bytes_c exports this function under its name, for C and Rust.

#![tactic(auto)]

ghost use Rattle.std.specs.Prelude.{◌≡◌};
ghost use Rattle.fluturenc.specs.Gives.{FeedCallGives};
ghost use Rattle.fluturenc_bytes.specs.BytesCall.{feed_bytes_call};

use refusal::Refusal;

// The bytes of a reader's state, and of its head.
const STATE: usize = exported_state::LENGTH;

const HEAD: usize = exported_state::HEAD;

// Feeds the nibbles of bytes from a place on, which is counted in nibbles, until one brings an answer or none is left. Refused: 11, 12, in this
// order. The run is lent the body where it stands in the state; a call that takes nothing leaves every byte of the state as it was.
#[tactic(auto, unfolding(fluturenc::specs::Calls::feed_call, exported_state::specs::State::holds_reader))]
pub fn fluturenc_feed_bytes(
    state: &mut [u8],
    bytes: &[u8],
    from: usize,
    line: &mut [u8],
    taken: &mut usize,
) -> u64
    ensures { FeedCallGives (feed_bytes_call state.old bytes.now from line.old) result taken.new state.new line.new }
{
    *taken = 0;
    if state.len() < STATE {
        return Refusal::BAD_STATE.0 as u64;
    }
    if exported_state::is_tagged(state[0], state[1], state[13]) {
        let h = exported_state::head_in(state);
        let t = capture_bytes::run(h, &mut state[HEAD..STATE], bytes, from, line);
        let head = t.head;
        if 0 < t.taken {
            exported_state::store_head(head, state);
        }
        *taken = t.taken;
        let answer = t.answer;
        return exported_numbers::answer_number(answer);
    }
    Refusal::BAD_STATE.0 as u64
}
