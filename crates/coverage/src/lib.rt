// Which lines of a frame came through, anywhere in a capture: with every number, the kinds of the lines that carried it.
//
// In: the answer of each call to the reader, and a lent table of CELLS bytes, all 0 at first. Out: the table, with a 1 for the kind and number of
// each line handed out; and whether a frame is covered: whether, of one layout, every line up to the EOF line came. Nothing is refused: a table
// that is shorter has no place for what lies behind it. Cost: constant for an answer, linear in a frame's lines for the whole.

#![tactic(auto)]

ghost use Rattle.std.specs.Prelude.{◌≡◌, ◌+◌};
ghost use Rattle.frame_layout.specs.FrameLayout.{end_place};
ghost use Rattle.line_code.specs.LineCode.{kind_number};
ghost use Rattle.coverage.specs.Coverage.{cell_of, has_come, with_line, with_answer, all_came, is_covered};

use frame_layout::Borders;
use line_code::Kind;
use profile::Profile;
use stream::Answer;

// A byte for each kind of each of a frame's lines: kinds are numbered from 1 to 5.
pub const CELLS: usize = 6 * 304;

// Notes an answer: the kind and number of a line.
pub fn note(answer: Answer, came: &mut [u8])
    ensures { came.new ≡ with_answer came.old answer }
{
    match answer {
        Answer::Nothing => {}
        Answer::Line(facts) => {
            let kind = facts.kind;
            note_line(kind.number(), facts.number, came);
        }
        Answer::Gap(_) => {}
        Answer::Refused(_) => {}
    }
}

fn note_line(kind: u8, number: u16, came: &mut [u8])
    ensures { came.new ≡ with_line came.old kind number }
{
    let cell = cell_of(kind, number);
    if cell < came.len() {
        came[cell] = 1;
    }
}

// Whether every line up to the EOF line came, of a layout with borders or of one without.
#[tactic(auto, unfolding(crate::specs::Coverage::is_covered))]
pub fn is_covered(profile: Profile, came: &[u8]) -> bool
    ensures { result ≡ is_covered profile came.now }
{
    have_come(profile, Borders::On, came) || have_come(profile, Borders::Off, came)
}

// Whether every line of a layout up to the EOF line came.
fn have_come(profile: Profile, borders: Borders, came: &[u8]) -> bool
    ensures { result ≡ all_came profile borders came.now (end_place profile borders + 1) }
{
    let lines = borders.end_place(profile) + 1;
    (0..lines).all(|place| has_come(borders.kind_at_place(profile, place), place, came))
}

// Whether a line of this kind came with this number.
fn has_come(kind: Kind, number: u16, came: &[u8]) -> bool
    ensures { result ≡ has_come came.now (kind_number kind) number }
{
    let cell = cell_of(kind.number(), number);
    cell < came.len() && came[cell] == 1
}

fn cell_of(kind: u8, number: u16) -> usize
    ensures { result ≡ cell_of kind number }
{
    6 * number as usize + kind as usize
}
