// The reader of the video bus, one nibble at a time (paper 01, 'One answer for each mark').
//
// In: nibbles 0 to 15, each with a lent line buffer; finish at the end. Out: beside the next reader, one answer for each mark, given
// when the next mark's code is complete or at finish: a line (its body is then the front of the lent buffer), a good gap, or a refusal.
// Refused, with reader and buffer as before: 11 a state that fails the reader's own test, 10 an input above 15, 12 a buffer shorter than
// the body. Cost: constant for a nibble; a body is scanned and copied only where a line is answered.

#![tactic(auto)]

ghost use Rattle.std.specs.Prelude.{◌≡◌, ◌≤◌, ◌-◌, ◌%◌, length};
ghost use Rattle.profile.specs.Profile.{body_length, longest};
ghost use Rattle.stream.specs.Answers.{outcome_of, answer_for, buffer_after, refused};
ghost use Rattle.reader.specs.Reader.{reader_of, fresh_reader, new_of, taking, take_of, feed_of, finish_of};
ghost use Rattle.reader.specs.Gives.{CallGives, FeedGives, TakeGives};
ghost use Rattle.reader.specs.Parts.{completing, copied};

use mark_text::Kept;
use profile::Profile;
use reader_head::{Head, WINDOW, flush, is_mark, leave_body, leave_kept, open_after, shift, slide};
use refusal::Refusal;
use stream::{Answer, Mark};

// A reader: what it keeps goes in and comes back by value.
#[derive(Clone, Copy)]
pub struct Reader {
    pub head: Head,
    pub body: [u8; Profile::LONGEST],
}

// A reader after a call, and the call's answer.
#[derive(Clone, Copy)]
pub struct Fed {
    pub reader: Reader,
    pub answer: Answer,
}

// A reader's state after a nibble, but for the body, and the answer.
#[derive(Clone, Copy)]
pub struct Stepped {
    pub head: Head,
    pub answer: Answer,
}

impl Reader {
    // A reader of the profile with this number. Refused: 11 if there is none, and then a fresh profile 0 reader comes back.
    pub fn new(profile: u8) -> Fed
        ensures { CallGives (new_of profile) result }
    {
        let found = Profile::numbered(profile);
        match found {
            Some(p) => {
                let reader = Reader::fresh(p);
                let answer = Answer::Nothing;
                Fed { reader, answer }
            }
            None => {
                let reader = Reader::fresh(Profile::VV5404);
                let answer = Answer::Refused(Refusal::BAD_STATE);
                Fed { reader, answer }
            }
        }
    }

    // A fresh reader: no mark, and no nibble.
    pub fn fresh(profile: Profile) -> Reader
        ensures { result ≡ fresh_reader profile }
    {
        let at = Mark::NoMark;
        let kept = Kept::nothing();
        let head = Head {
            profile,
            at,
            count: 0,
            window: 0,
            kept,
        };
        Reader {
            head,
            body: [0; Profile::LONGEST],
        }
    }

    // Takes one nibble. Refused: 11, 10, 12, in this order.
    pub fn feed(self, nibble: u8, buffer: &mut [u8]) -> Fed
        ensures { FeedGives self.head.profile (feed_of self nibble (length buffer.old)) result buffer.old buffer.new }
    {
        let h = self.head;
        if h.passes() {
            let mut body = self.body;
            let t = take(h, &mut body, nibble, buffer);
            let head = t.head;
            let answer = t.answer;
            let reader = Reader { head, body };
            return Fed { reader, answer };
        }
        let answer = Answer::Refused(Refusal::BAD_STATE);
        Fed {
            reader: self,
            answer,
        }
    }

    // Answers the last mark, if there is one, and leaves a fresh reader. Refused: 11, and then the reader stays as it was.
    pub fn finish(self) -> Fed
        ensures { CallGives (finish_of self) result }
    {
        let h = self.head;
        if h.passes() {
            let g = flush(h);
            let at = h.at;
            let kept = g.kept;
            let p = h.profile;
            let answer = mark_answer::at_finish(p, at, h.count, kept);
            let reader = Reader::fresh(p);
            return Fed { reader, answer };
        }
        let answer = Answer::Refused(Refusal::BAD_STATE);
        Fed {
            reader: self,
            answer,
        }
    }
}

// Takes one nibble of a reader whose body is lent, and does not ask whether the reader passes its own test. Refused: 11 where the body
// is not as long as the longest, 10, 12, in this order.
pub fn take(h: Head, body: &mut [u8], nibble: u8, buffer: &mut [u8]) -> Stepped
    ensures { TakeGives (take_of (reader_of h body.old) nibble (length buffer.old)) result body.new buffer.old buffer.new }
{
    if body.len() != Profile::LONGEST {
        return refuse(h, Refusal::BAD_STATE);
    }
    if 15 < nibble {
        return refuse(h, Refusal::NOT_A_NIBBLE);
    }
    let p = h.profile;
    if buffer.len() < p.body_length() {
        return refuse(h, Refusal::NO_ROOM);
    }
    taken(h, body, nibble, buffer)
}

fn refuse(h: Head, refusal: Refusal) -> Stepped
    ensures { (result.head ≡ h) × (result.answer ≡ answer_for (refused refusal.0)) }
{
    let answer = Answer::Refused(refusal);
    Stepped { head: h, answer }
}

// Takes a nibble, of a byte above 15 the low four bits: the oldest of a full window leaves it, and a mark is complete or not.
fn taken(h: Head, body: &mut [u8], nibble: u8, buffer: &mut [u8]) -> Stepped
    requires { (body_length h.profile ≤ length buffer.old) × (length body.old ≡ longest) }
    ensures { TakeGives (taking (reader_of h body.old) (nibble % 16)) result body.new buffer.old buffer.new }
{
    leave_body(h, body);
    let newest = slide(h.window, nibble);
    if is_mark(newest) {
        return complete(h, body, (newest % 256) as u8, buffer);
    }
    let head = shift(h, nibble);
    let answer = Answer::Nothing;
    Stepped { head, answer }
}

// A mark with this code is complete: the mark before it is answered, and a line handed out.
fn complete(h: Head, body: &[u8], code: u8, buffer: &mut [u8]) -> Stepped
    requires { (body_length h.profile ≤ length buffer.old) × (length body.now ≡ longest) }
    ensures { TakeGives (completing (reader_of h body.now) code) result body.now buffer.old buffer.new }
{
    let p = h.profile;
    let at = h.at;
    let kept = leave_kept(h);
    let closed = mark_answer::at_mark(p, at, text_length(h.count), kept, body, code);
    let answer = closed.answer;
    let before = closed.before;
    hand_out(p, answer, body, buffer);
    let head = open_after(h, before, code);
    Stepped { head, answer }
}

// The length of the open mark's text when the next mark is complete: that mark's eight nibbles are not of it, and seven are counted.
fn text_length(count: u32) -> u32
    ensures { result ≡ count - 7 }
{
    count.saturating_sub(WINDOW - 1)
}

// A line's body goes to the front of the buffer.
fn hand_out(p: Profile, answer: Answer, body: &[u8], buffer: &mut [u8])
    requires { (body_length p ≤ length buffer.old) × (length body.now ≡ longest) }
    ensures { buffer.new ≡ buffer_after (outcome_of p answer body.now) buffer.old }
{
    match answer {
        Answer::Line(_) => copy_front(buffer, body, p.body_length()),
        Answer::Nothing | Answer::Gap(_) | Answer::Refused(_) => {}
    }
}

// The first n bytes of one slice go to the front of another. Byte after byte: by copy_from_slice an archive for C would need memmove from outside.
fn copy_front(to: &mut [u8], from: &[u8], n: usize)
    requires { (n ≤ length from.now) × (n ≤ length to.old) }
    ensures { to.new ≡ copied to.old from.now n }
{
    for i in 0..n {
        to[i] = from[i];
    }
}
