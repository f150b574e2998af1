// What C and Rust call of crate fluturenc: its reader, writer and judge.
//
// Each function is that crate's own of the same name, with the same clauses. In C a slice is a pointer and then a length, and a `&mut` of a
// number a pointer; no two slices of a call may overlap. For C: c/fluturenc.h.

#![tactic(auto)]

ghost use Rattle.std.specs.Prelude.{◌≡◌, length};
ghost use Rattle.writer.specs.Writer.{write_of};
ghost use Rattle.exported_call.specs.LentCall.{StateGives, WriteGives};
ghost use Rattle.exported_state.specs.State.{state_length};
ghost use Rattle.fluturenc.specs.Calls.{open_call, feed_call, finish_call, judge_call};
ghost use Rattle.fluturenc.specs.Gives.{FeedCallGives, JudgeGives};

// The bytes of a reader's state.
#[unsafe(no_mangle)]
pub extern "C" fn fluturenc_state_length() -> usize
    ensures { result ≡ state_length }
{
    fluturenc::fluturenc_state_length()
}

// Puts a fresh reader of the profile with this number into the state. Refused: 11, 12, in this order.
#[unsafe(no_mangle)]
pub extern "C" fn fluturenc_open(profile: u8, state: &mut [u8]) -> u8
    ensures { StateGives (open_call profile state.old) result state.new }
{
    fluturenc::fluturenc_open(profile, state)
}

// Feeds nibbles until one brings an answer or none is left. Refused: 11, 12, in this order, and then by place 10. The reader's run is lent
// the body where it stands in the state, so that no call copies it; a call that takes nothing leaves every byte of the state as it was.
#[unsafe(no_mangle)]
pub extern "C" fn fluturenc_feed(
    state: &mut [u8],
    nibbles: &[u8],
    line: &mut [u8],
    taken: &mut usize,
) -> u64
    ensures { FeedCallGives (feed_call state.old nibbles.now line.old) result taken.new state.new line.new }
{
    fluturenc::fluturenc_feed(state, nibbles, line, taken)
}

// Answers the last mark, if there is one, and leaves a fresh reader. Refused: 11.
#[unsafe(no_mangle)]
pub extern "C" fn fluturenc_finish(state: &mut [u8]) -> u64
    ensures { StateGives (finish_call state.old) result state.new }
{
    fluturenc::fluturenc_finish(state)
}

// Writes one line's nibbles. Refused: 11, 13, 14, 15, 16, 17, 12, in this order.
#[unsafe(no_mangle)]
pub extern "C" fn fluturenc_write(
    profile: u8,
    kind: u8,
    number: u16,
    body: &[u8],
    first: u8,
    second: u8,
    nulls: u32,
    nibbles: &mut [u8],
    written: &mut usize,
) -> u8
    ensures { WriteGives (write_of profile kind number body.now first second nulls (length nibbles.old)) result written.new nibbles.old nibbles.new }
{
    fluturenc::fluturenc_write(
        profile, kind, number, body, first, second, nulls, nibbles, written,
    )
}

// Judges one line of a profile 0 frame, or a broken one. Refused, and then the judge stays as it was: 11, 13, 14, in this order.
#[unsafe(no_mangle)]
pub extern "C" fn fluturenc_judge(judge: &mut u32, kind: u8, number: u16) -> u8
    ensures { JudgeGives (judge_call judge.old kind number) result judge.new }
{
    fluturenc::fluturenc_judge(judge, kind, number)
}
