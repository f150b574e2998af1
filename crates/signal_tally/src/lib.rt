// What a capture's answers say of its signal: the lines read, the refused marks by number, the repaired codes by bit, and the line periods.
//
// In: the answer of each call to the reader, in order; at the end, finish's. Out: the counts. A capture begins and ends anywhere: a first mark
// that is an end of line (8), a line that the end cut off (3) and a gap that it cut short (9) are not counted as refused. Nothing is refused by
// these calls; an answer that is no mark's changes nothing. Cost: constant.

#![tactic(auto)]

ghost use Rattle.std.specs.Prelude.{◌≡◌};
ghost use Rattle.counts.specs.Counts.{one_more_at};
ghost use Rattle.signal_tally.specs.Signal.{fresh_signal, seen, is_start, with_first, with_repair, line_seen, gap_seen, refusal_seen, take_of, is_cut, close_of};

use counts::one_more;
use line_code::Repair;
use refusal::Refusal;
use spacing::Spacing;
use stream::{Answer, GapFacts, LineFacts};

// The first mark of a capture: none yet; an end of line, since the capture began inside a line; any other.
#[derive(Clone, Copy)]
pub enum First {
    Unseen,
    InsideLine,
    Other,
}

#[derive(Clone, Copy)]
pub struct Signal {
    pub first: First,
    pub lines: u64,
    // Refused marks: at each place those with that number, 1 to 9.
    pub refused: [u64; REFUSALS],
    // Repaired codes, that start or end a line: at each place those of that bit.
    pub repaired: [u64; BITS],
    pub spacing: Spacing,
}

// A mark's refusal numbers are below this.
pub const REFUSALS: usize = 10;

// The bits of a code.
pub const BITS: usize = 8;

impl Signal {
    // Nothing seen.
    pub fn new() -> Signal
        ensures { result ≡ fresh_signal }
    {
        let first = First::Unseen;
        let spacing = Spacing::new();
        Signal {
            first,
            lines: 0,
            refused: [0; REFUSALS],
            repaired: [0; BITS],
            spacing,
        }
    }

    // Takes the answer of a call.
    pub fn take(self, answer: Answer) -> Signal
        ensures { result ≡ take_of self answer }
    {
        match answer {
            Answer::Nothing => self,
            Answer::Line(facts) => self.line(facts),
            Answer::Gap(facts) => self.gap(facts),
            Answer::Refused(refusal) => {
                if self.is_start(refusal) {
                    return self.with_first(First::InsideLine);
                }
                self.refusal(refusal)
            }
        }
    }

    // Takes finish's answer.
    pub fn close(self, last: Answer) -> Signal
        ensures { result ≡ close_of self last }
    {
        if is_cut(last) {
            let first = self.first;
            return self.with_first(first.seen());
        }
        self.take(last)
    }

    // A line: it is counted, and the repair of each of its codes.
    fn line(self, facts: LineFacts) -> Signal
        ensures { result ≡ line_seen self facts }
    {
        let first = self.first;
        let first = first.seen();
        let lines = one_more(self.lines);
        let refused = self.refused;
        let repaired = self.repaired;
        let start = facts.start;
        let repaired = with_repair(repaired, start);
        let end = facts.end;
        let repaired = with_repair(repaired, end);
        let spacing = self.spacing;
        Signal {
            first,
            lines,
            refused,
            repaired,
            spacing,
        }
    }

    // A good gap: the period of its line.
    fn gap(self, facts: GapFacts) -> Signal
        ensures { result ≡ gap_seen self facts }
    {
        let first = self.first;
        let first = first.seen();
        let refused = self.refused;
        let repaired = self.repaired;
        let spacing = self.spacing;
        let period = facts.period;
        let spacing = spacing.with(period);
        Signal {
            first,
            lines: self.lines,
            refused,
            repaired,
            spacing,
        }
    }

    // A refused mark.
    fn refusal(self, refusal: Refusal) -> Signal
        ensures { result ≡ refusal_seen self refusal.0 }
    {
        let first = self.first;
        let first = first.seen();
        let refused = self.refused;
        let refused = with_refusal(refused, refusal);
        let repaired = self.repaired;
        let spacing = self.spacing;
        Signal {
            first,
            lines: self.lines,
            refused,
            repaired,
            spacing,
        }
    }

    // Whether a refused mark is the first, and tells that the capture began inside a line.
    fn is_start(self, refusal: Refusal) -> bool
        ensures { result ≡ is_start self.first refusal.0 }
    {
        matches!(self.first, First::Unseen) && refusal == Refusal::END_WITHOUT_LINE
    }

    fn with_first(self, first: First) -> Signal
        ensures { result ≡ with_first self first }
    {
        let refused = self.refused;
        let repaired = self.repaired;
        let spacing = self.spacing;
        Signal {
            first,
            lines: self.lines,
            refused,
            repaired,
            spacing,
        }
    }
}

impl First {
    // With a mark more.
    fn seen(self) -> First
        ensures { result ≡ seen self }
    {
        match self {
            First::Unseen => First::Other,
            First::InsideLine => First::InsideLine,
            First::Other => First::Other,
        }
    }
}

// Whether finish's answer tells only that the capture's end cut off a line or a gap.
fn is_cut(last: Answer) -> bool
    ensures { result ≡ is_cut last }
{
    match last {
        Answer::Refused(refusal) => {
            refusal == Refusal::UNFINISHED_LINE || refusal == Refusal::BAD_GAP
        }
        _ => false,
    }
}

fn with_refusal(refused: [u64; REFUSALS], refusal: Refusal) -> [u64; REFUSALS]
    ensures { result ≡ one_more_at refused refusal.0 }
{
    let mut counts = refused;
    counts::add_at(&mut counts, refusal.0 as usize);
    counts
}

fn with_repair(repaired: [u64; BITS], repair: Repair) -> [u64; BITS]
    ensures { result ≡ with_repair repaired repair }
{
    match repair {
        Repair::Clean => repaired,
        Repair::Bit(bit) => with_bit(repaired, bit),
    }
}

fn with_bit(repaired: [u64; BITS], bit: u8) -> [u64; BITS]
    ensures { result ≡ one_more_at repaired bit }
{
    let mut counts = repaired;
    counts::add_at(&mut counts, bit as usize);
    counts
}
