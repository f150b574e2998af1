// What a capture tool in C or Rust calls: the reader, the writer and the judge behind numbers and byte slices.
//
// Each exported function takes numbers, slices (in C a pointer and then a length) and places for a second result (a pointer); no two of
// its slices may overlap. Nothing is asked of what they hold: every call is answered, and room beyond what it writes stays as it was.
//
//   fluturenc_state_length()                           the bytes of a reader's state: 370
//   fluturenc_open(profile, state)                     a fresh reader: 0; or 11 no such profile, 12 a state shorter than that
//   fluturenc_feed(state, nibbles, line, taken)        feeds nibbles up to the first answer or the end: the answer, and how many it took
//   fluturenc_finish(state)                            the last mark's answer; the reader is fresh again
//   fluturenc_write(profile, kind, number, body, first, second, nulls, nibbles, written)
//                                                      one line's nibbles and how many: 0; or 11, 13, 14, 15, 16, 17, 12
//   fluturenc_judge(judge, kind, number)               one line, or kind 0 for a broken one: 0 waiting, 1 going, 2 complete, or the refusal
//
// An answer of feed and finish is one number: 0 nothing yet; 1 to 12 the refusal; 2^24 + 2^19 (repaired) + 2^16 * kind + number a line,
// whose body is then the front of the line buffer, and above these 32 bits + 2^32 * start + 2^48 * end, what was repaired of the code that
// starts it and of the one that ends it: 0 nothing, else one more than the bit's number; 2^32 * period + 2^25 + 2^8 * first + second a good
// gap, with its line's period in nibbles, 0 where that line was not handed out or finish closed the gap. Feeding is refused 11 if the state holds no
// reader that passes its own test, then 12 if the line buffer is shorter than the body, also for no nibbles, and takes nothing; an input
// above 15 stops it before that place with 10. Finish is refused 11. Refused calls change nothing, but that what stood before a 10 is taken.
//
// A state is moved and copied as bytes: crate exported_state has its layout. A judge is a number, 0 when fresh. For C: c/fluturenc.h.
//
// Crate fluturenc_c exports these functions under their names, for C and Rust.

#![tactic(auto)]

ghost use Rattle.std.specs.Prelude.{◌≡◌, ◌≤◌, length};
ghost use Rattle.writer.specs.Writer.{write_of};
ghost use Rattle.exported_call.specs.LentCall.{StateGives, WriteGives};
ghost use Rattle.exported_state.specs.State.{state_length, reader_in, stored};
ghost use Rattle.fluturenc.specs.Calls.{open_call, feed_call, finish_call, judge_call};
ghost use Rattle.fluturenc.specs.Gives.{FeedCallGives, JudgeGives};

use profile::Profile;
use reader::Reader;
use refusal::Refusal;

// The bytes of a reader's state: its head's, and its body's.
const STATE: usize = exported_state::LENGTH;

const HEAD: usize = exported_state::HEAD;

// The bytes of a reader's state.
pub fn fluturenc_state_length() -> usize
    ensures { result ≡ state_length }
{
    STATE
}

// Puts a fresh reader of the profile with this number into the state. Refused: 11, 12, in this order.
#[tactic(auto, unfolding(crate::specs::Calls::open_call))]
pub fn fluturenc_open(profile: u8, state: &mut [u8]) -> u8
    ensures { StateGives (open_call profile state.old) result state.new }
{
    let Some(p) = Profile::numbered(profile) else {
        return Refusal::BAD_STATE.0;
    };
    if state.len() < STATE {
        return Refusal::NO_ROOM.0;
    }
    let r = Reader::fresh(p);
    store(r, state);
    0
}

// Feeds nibbles until one brings an answer or none is left. Refused: 11, 12, in this order, and then by place 10. The reader's run is lent
// the body where it stands in the state, so that no call copies it; a call that takes nothing leaves every byte of the state as it was.
#[tactic(auto, unfolding(crate::specs::Calls::feed_call, exported_state::specs::State::holds_reader))]
pub fn fluturenc_feed(state: &mut [u8], nibbles: &[u8], line: &mut [u8], taken: &mut usize) -> u64
    ensures { FeedCallGives (feed_call state.old nibbles.now line.old) result taken.new state.new line.new }
{
    *taken = 0;
    if state.len() < STATE {
        return Refusal::BAD_STATE.0 as u64;
    }
    if exported_state::is_tagged(state[0], state[1], state[13]) {
        let h = exported_state::head_in(state);
        let t = run::run_lent(h, &mut state[HEAD..STATE], nibbles, line);
        let head = t.head;
        if 0 < t.taken {
            exported_state::store_head(head, state);
        }
        *taken = t.taken;
        let answer = t.answer;
        return exported_numbers::answer_number(answer);
    }
    Refusal::BAD_STATE.0 as u64
}

// Answers the last mark, if there is one, and leaves a fresh reader. Refused: 11.
#[tactic(auto, unfolding(crate::specs::Calls::finish_call))]
pub fn fluturenc_finish(state: &mut [u8]) -> u64
    ensures { StateGives (finish_call state.old) result state.new }
{
    if exported_state::holds_reader(state) {
        let r = reader_in(state);
        let f = r.finish();
        let next = f.reader;
        store(next, state);
        let answer = f.answer;
        return exported_numbers::answer_number(answer);
    }
    Refusal::BAD_STATE.0 as u64
}

// Writes one line's nibbles. Refused: 11, 13, 14, 15, 16, 17, 12, in this order.
pub fn fluturenc_write(
    profile: u8,
    kind: u8,
    number: u16,
    body: &[u8],
    first: u8,
    second: u8,
    nulls: u32,
    nibbles: &mut [u8],
    written: &mut usize,
) -> u8
    ensures { WriteGives (write_of profile kind number body.now first second nulls (length nibbles.old)) result written.new nibbles.old nibbles.new }
{
    let w = writer::write(profile, kind, number, body, first, second, nulls, nibbles);
    exported_call::number_written(w, written)
}

// Judges one line of a profile 0 frame, or a broken one. Refused, and then the judge stays as it was: 11, 13, 14, in this order.
#[tactic(auto, unfolding(crate::specs::Calls::judge_call))]
pub fn fluturenc_judge(judge: &mut u32, kind: u8, number: u16) -> u8
    ensures { JudgeGives (judge_call judge.old kind number) result judge.new }
{
    let n = *judge;
    if n < exported_numbers::JUDGES {
        let j = exported_numbers::judge_numbered(n);
        let d = j.line(Profile::VV5404, kind, number);
        let next = d.judge;
        *judge = exported_numbers::judge_number(next);
        let ruling = d.ruling;
        return exported_numbers::ruling_number(ruling);
    }
    Refusal::BAD_STATE.0
}

// A reader in the state, and back.

fn reader_in(state: &[u8]) -> Reader
    requires { state_length ≤ length state.now }
    ensures { result ≡ reader_in state.now }
{
    let head = exported_state::head_in(state);
    let mut body = [0; Profile::LONGEST];
    body.copy_from_slice(&state[HEAD..STATE]);
    Reader { head, body }
}

// Puts a reader into the state.
fn store(r: Reader, state: &mut [u8])
    requires { state_length ≤ length state.old }
    ensures { state.new ≡ stored r state.old }
{
    let head = r.head;
    let body = r.body;
    exported_state::store_head(head, state);
    state[HEAD..STATE].copy_from_slice(&body);
}
