// What C and Rust call of crate fluturenc_bytes: feeding packed bytes.
//
// Each function is that crate's own of the same name, with the same clauses. In C a slice is a pointer and then a length, and a `&mut` of a
// number a pointer; no two slices of a call may overlap. For C: c/fluturenc.h.

#![tactic(auto)]

ghost use Rattle.fluturenc.specs.Gives.{FeedCallGives};
ghost use Rattle.fluturenc_bytes.specs.BytesCall.{feed_bytes_call};

// Feeds the nibbles of bytes from a place on, which is counted in nibbles, until one brings an answer or none is left. Refused: 11, 12, in this
// order. The run is lent the body where it stands in the state; a call that takes nothing leaves every byte of the state as it was.
#[unsafe(no_mangle)]
pub extern "C" fn fluturenc_feed_bytes(
    state: &mut [u8],
    bytes: &[u8],
    from: usize,
    line: &mut [u8],
    taken: &mut usize,
) -> u64
    ensures { FeedCallGives (feed_bytes_call state.old bytes.now from line.old) result taken.new state.new line.new }
{
    fluturenc_bytes::fluturenc_feed_bytes(state, bytes, from, line, taken)
}
