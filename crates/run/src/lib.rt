// A run of nibbles in one call (paper 02, A5).
//
// In: a reader, a run of nibbles and a lent line buffer. Out: the reader after the nibbles up to the first answer, that answer, and how many
// nibbles were taken. Refused, before anything is taken and for an empty run too: 11 a reader that fails its own test, 12 a buffer shorter than
// the body. An input above 15 stops the run just before that place with 10: what was taken stays taken.
//
// Where no mark can end in the next two nibbles they are taken in one turn (crate run_ahead); every other nibble is taken as feeding takes it. Cost:
// linear in the nibbles taken.

#![tactic(auto)]

ghost use Rattle.std.specs.Prelude.{◌≡◌, ◌≤◌, ◌<◌, length};
ghost use Rattle.profile.specs.Profile.{body_length, longest};
ghost use Rattle.stream.specs.Answers.{answer_for, refused};
ghost use Rattle.reader.specs.Reader.{reader_of, taking};
ghost use Rattle.reader.specs.Gives.{TakeGives};
ghost use Rattle.run.specs.Run.{run_of, lent_run_of};
ghost use Rattle.run.specs.Gives.{RunGives, LentRunGives};
ghost use Rattle.run.specs.Parts.{ran_from, Ends};

use profile::Profile;
use reader::{Reader, Stepped};
use reader_head::Head;
use refusal::Refusal;
use stream::Answer;

// A reader after a run of nibbles, the run's answer, and how many nibbles it took.
#[derive(Clone, Copy)]
pub struct RunFed {
    pub reader: Reader,
    pub answer: Answer,
    pub taken: usize,
}

// The same of a reader whose body is lent.
#[derive(Clone, Copy)]
pub struct RunStepped {
    pub head: Head,
    pub answer: Answer,
    pub taken: usize,
}

// Takes a run of nibbles up to the first answer.
pub fn run(reader: Reader, nibbles: &[u8], buffer: &mut [u8]) -> RunFed
    ensures { RunGives reader.head.profile (run_of reader nibbles.now (length buffer.old)) result buffer.old buffer.new }
{
    let h = reader.head;
    let mut body = reader.body;
    let t = run_lent(h, &mut body, nibbles, buffer);
    let head = t.head;
    let answer = t.answer;
    let taken = t.taken;
    let reader = Reader { head, body };
    RunFed {
        reader,
        answer,
        taken,
    }
}

// The same of a reader whose body is lent, so that calls in a row copy no body. Refused 11 also where the lent body is not as long as the
// longest.
pub fn run_lent(h: Head, body: &mut [u8], nibbles: &[u8], buffer: &mut [u8]) -> RunStepped
    ensures { LentRunGives h.profile (lent_run_of h body.old nibbles.now (length buffer.old)) result body.new buffer.old buffer.new }
{
    if body.len() != Profile::LONGEST {
        return refuse(h, Refusal::BAD_STATE, 0);
    }
    if h.passes() {
        let p = h.profile;
        if buffer.len() < p.body_length() {
            return refuse(h, Refusal::NO_ROOM, 0);
        }
        return up_to_stop(h, body, nibbles, buffer);
    }
    refuse(h, Refusal::BAD_STATE, 0)
}

// A run that is refused, or stopped by an input above 15, with what it took.
fn refuse(h: Head, refusal: Refusal, taken: usize) -> RunStepped
    ensures { (result.head ≡ h) × (result.answer ≡ answer_for (refused refusal.0)) × (result.taken ≡ taken) }
{
    let answer = Answer::Refused(refusal);
    RunStepped {
        head: h,
        answer,
        taken,
    }
}

// Takes nibbles up to the run's stop.
fn up_to_stop(start: Head, body: &mut [u8], nibbles: &[u8], buffer: &mut [u8]) -> RunStepped
    requires { (body_length start.profile ≤ length buffer.old) × (length body.old ≡ longest) }
    ensures { Ends (ran_from start body.old nibbles.now) result.head body.new result.taken result.answer buffer.old buffer.new }
{
    let first = run_ahead::ahead(start, body, nibbles, 0);
    let mut h = first.head;
    let mut i = first.at;
    // A nibble a turn, from the place up to which the run ahead took them.
    while i < nibbles.len() {
        let x = nibbles[i];
        if 15 < x {
            return refuse(h, Refusal::NOT_A_NIBBLE, i);
        }
        let t = take(h, body, x, buffer);
        let answer = t.answer;
        let after = t.head;
        i += 1;
        if answer.is_answer() {
            return RunStepped {
                head: after,
                answer,
                taken: i,
            };
        }
        let next = run_ahead::ahead(after, body, nibbles, i);
        h = next.head;
        i = next.at;
    }
    let answer = Answer::Nothing;
    RunStepped {
        head: h,
        answer,
        taken: i,
    }
}

// Takes one nibble, where nothing is refused.
fn take(h: Head, body: &mut [u8], nibble: u8, buffer: &mut [u8]) -> Stepped
    requires { (nibble < 16) × (body_length h.profile ≤ length buffer.old) × (length body.old ≡ longest) }
    ensures { TakeGives (taking (reader_of h body.old) nibble) result body.new buffer.old buffer.new }
{
    reader::take(h, body, nibble, buffer)
}
