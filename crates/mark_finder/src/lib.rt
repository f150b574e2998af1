// A finder of marks (paper 02, A9): each mark of a capture with its number, its place, what the reader answers it with, and its own bytes.
//
// In: the bytes of a capture, piece after piece, and a lent buffer, the same one each time. The first piece is FRONT, an end of line that counts
// as mark 0: so the first mark of the capture is answered where the next one begins, as all others are. Each later piece has the last four bytes
// of the one before at its front (`carry`), since a mark may begin there. `find` takes a piece from a nibble's place on, up to the first answer;
// `end_piece` ends it; `finish` answers the last mark. Out: the mark that is answered, whose bytes stand at the front of the buffer, as many as it has
// room for: from the byte that it begins in through the byte in which the next mark's code ends. Nothing else is refused: a reader that fails its
// own test is answered 11, and then nothing is taken. Cost: that of the reader's runs, and linear in the bytes kept.

#![tactic(auto)]

ghost use Rattle.std.specs.Prelude.{◌≡◌, ◌+◌, ◌-◌, min, length};
ghost use Rattle.reader.specs.Reader.{finish_of};
ghost use Rattle.stream.specs.Answers.{answer_for};
ghost use Rattle.counts.specs.Counts.{greatest_count};
ghost use Rattle.text.specs.Put.{Puts};
ghost use Rattle.mark_finder.specs.MarkFinder.{span, last_four, number_before, kind_before_it, refusal_in, located, opening_next, fresh_finder, find_of, Finds, end_piece_of, EndsPiece, is_wanted};

use profile::Profile;
use reader::Reader;
use stream::{Answer, Before, Mark};
use text::put;

// A mark of a capture.
#[derive(Clone, Copy)]
pub struct Located {
    pub profile: Profile,
    // The number of the kind of the mark before it, 0 for none: no Option of the kind, since reason::explain takes this number.
    pub before: u8,
    // Its own number, counted from 1 as a listing does.
    pub number: u64,
    // The number that the reader refuses it with, 0 for a good line or gap: no Option, since why_words::put_explained takes it.
    pub refusal: u8,
    // The place in the capture of the byte that it begins in, and whether it begins at the byte's low nibble.
    pub place: u64,
    pub low: bool,
}

// A reader, and the open mark: its number; the place of the byte that it begins in, the bytes of FRONT counted with the capture's; whether it
// begins at the low nibble. The place of the piece's first byte, counted so. The place in the piece from which the mark's bytes are still to be
// kept, and how many are kept.
#[derive(Clone, Copy)]
pub struct Finder {
    pub reader: Reader,
    pub number: u64,
    pub place: u64,
    pub low: bool,
    pub offset: u64,
    pub begin: usize,
    pub length: usize,
}

// A finder after a call, how many nibbles it took, whether a mark is answered, and that mark, with how many of its bytes are kept.
#[derive(Clone, Copy)]
pub struct FoundMark {
    pub finder: Finder,
    pub taken: usize,
    pub answered: bool,
    pub mark: Located,
    pub length: usize,
}

// The bytes that a piece begins with and that were taken before.
pub const OVERLAP: usize = 4;

// An end of line: the first piece.
pub const FRONT: [u8; OVERLAP] = [0xFF, 0xFF, 0x00, 0x80];

// The nibbles of F F F F 0 0 and the code.
const MARK: usize = 8;

impl Finder {
    // A fresh reader, and nothing found.
    pub fn new(profile: Profile) -> Finder
        ensures { result ≡ fresh_finder profile }
    {
        let reader = Reader::fresh(profile);
        Finder {
            reader,
            number: 0,
            place: 0,
            low: false,
            offset: 0,
            begin: 0,
            length: 0,
        }
    }

    // Takes the nibbles of a piece's bytes from a place on, up to the first answer.
    pub fn find(self, piece: &[u8], from: usize, held: &mut [u8]) -> FoundMark
        ensures { Finds (find_of self piece.now from held.old) result held.new }
    {
        let reader = self.reader;
        let mut body = reader.body;
        let mut line = [0u8; Profile::LONGEST];
        let t = capture_bytes::run(reader.head, &mut body, piece, from, &mut line);
        let head = t.head;
        let answer = t.answer;
        let reader = Reader { head, body };
        let mark = self.locate(answer);
        if answer.is_answer() {
            let next = from + t.taken;
            let length = keep_bytes(piece, self.begin, next / 2 + next % 2, held, self.length);
            let finder = self.open_next(reader, next);
            return FoundMark {
                finder,
                taken: t.taken,
                answered: true,
                mark,
                length,
            };
        }
        let finder = Finder {
            reader,
            number: self.number,
            place: self.place,
            low: self.low,
            offset: self.offset,
            begin: self.begin,
            length: self.length,
        };
        FoundMark {
            finder,
            taken: t.taken,
            answered: false,
            mark,
            length: self.length,
        }
    }

    // Leaves a piece that is taken: the open mark's bytes there are kept.
    pub fn end_piece(self, piece: &[u8], held: &mut [u8]) -> Finder
        ensures { EndsPiece (end_piece_of self piece.now held.old) result held.new }
    {
        let n = piece.len();
        let length = keep_bytes(piece, self.begin, n, held, self.length);
        let offset = further(self.offset, less(n, OVERLAP));
        let reader = self.reader;
        Finder {
            reader,
            number: self.number,
            place: self.place,
            low: self.low,
            offset,
            begin: OVERLAP,
            length,
        }
    }

    // The last mark, as the capture's end answers it. How many of its bytes are kept is the finder's own length.
    pub fn finish(self) -> Located
        ensures { result ≡ located self (answer_for (finish_of self.reader).outcome) }
    {
        let reader = self.reader;
        let fed = reader.finish();
        let answer = fed.answer;
        self.locate(answer)
    }

    // The open mark, with its answer.
    fn locate(self, answer: Answer) -> Located
        ensures { result ≡ located self answer }
    {
        let reader = self.reader;
        let head = reader.head;
        let profile = head.profile;
        let at = head.at;
        let before = kind_before(at);
        let refusal = refusal_in(answer);
        let place = place_behind(self.place);
        Located {
            profile,
            before,
            number: self.number,
            refusal,
            place,
            low: self.low,
        }
    }

    // The mark whose code ends just before a nibble of the piece.
    fn open_next(self, reader: Reader, next: usize) -> Finder
        ensures { result ≡ opening_next self reader next }
    {
        let start = less(next, MARK);
        let begin = start / 2;
        let number = counts::one_more(self.number);
        let place = further(self.offset, begin);
        let low = start % 2 == 1;
        Finder {
            reader,
            number,
            place,
            low,
            offset: self.offset,
            begin,
            length: 0,
        }
    }
}

// Puts the last four of a buffer's first n bytes at its front: those that the next piece begins with.
pub fn carry(buf: &mut [u8], n: usize)
    ensures { buf.new ≡ last_four buf.old n }
{
    if n < OVERLAP {
        return;
    }
    if buf.len() < n {
        return;
    }
    let last = [buf[n - 4], buf[n - 3], buf[n - 2], buf[n - 1]];
    put(&last, buf, 0);
}

// Whether a mark is asked for: the one with the number wanted, or, where that is 0, any that is refused. Mark 0 is none of the capture's.
#[tactic(auto, unfolding(crate::specs::MarkFinder::is_wanted))]
pub fn is_wanted(mark: Located, wanted: u64) -> bool
    ensures { result ≡ is_wanted mark wanted }
{
    mark.number != 0 && (mark.number == wanted || (wanted == 0 && 0 < mark.refusal))
}

// Puts the bytes of a piece from one place up to another behind the first n of those held, as far as there is room, and gives how many are
// held then.
fn keep_bytes(piece: &[u8], begin: usize, to: usize, held: &mut [u8], n: usize) -> usize
    ensures { Puts held.old n (span piece.now begin to) result held.new }
{
    let end = lesser(to, piece.len());
    let first = lesser(begin, end);
    put(&piece[first..end], held, n)
}

// The number of the kind of the mark before, 0 for none.
fn kind_before(mark: Mark) -> u8
    ensures { result ≡ kind_before_it mark }
{
    match mark {
        Mark::NoMark => 0,
        Mark::Open(before, _) => number_before(before),
    }
}

fn number_before(before: Before) -> u8
    ensures { result ≡ number_before before }
{
    match before {
        Before::NoLine => 0,
        Before::RefusedLine(kind) => kind.number(),
        Before::HandedOut(kind) => kind.number(),
    }
}

// The number that an answer refuses with, 0 for a good line or gap.
fn refusal_in(answer: Answer) -> u8
    ensures { result ≡ refusal_in answer }
{
    match answer {
        Answer::Nothing => 0,
        Answer::Line(_) => 0,
        Answer::Gap(_) => 0,
        Answer::Refused(refusal) => refusal.0,
    }
}

// The place in the capture: FRONT stands before it.
fn place_behind(place: u64) -> u64
    ensures { result ≡ place - 4 }
{
    if place < 4 {
        return 0;
    }
    place - 4
}

fn less(n: usize, m: usize) -> usize
    ensures { result ≡ n - m }
{
    if n < m {
        return 0;
    }
    n - m
}

// A place and some bytes more, held at the greatest u64, which no capture reaches.
fn further(place: u64, n: usize) -> u64
    ensures { result ≡ min (place + n) greatest_count }
{
    let more = n as u64;
    if u64::MAX - place < more {
        return u64::MAX;
    }
    place + more
}

fn lesser(a: usize, b: usize) -> usize
    ensures { result ≡ min a b }
{
    if a < b {
        return a;
    }
    b
}
