// The rows of a listing (paper 01, the program's output), rendered into a lent buffer.
//
// In: the number of a mark and its answer. Out: the row's bytes at the front of the buffer, and how many they are. Nothing is refused:
// a buffer of fewer than ROW bytes stays as it was, and the count is 0. Cost: linear in the row.

#![tactic(auto)]

ghost use Rattle.std.specs.Prelude.{length};
ghost use Rattle.text.specs.Pages.{Writes};
ghost use Rattle.text.specs.Put.{AtFront};
ghost use Rattle.list_rows.specs.Rows.{header_row, kind_word, note_word, gap_words, line_words, refused_words, row_with, row_of, row_if_room};

use line_code::Kind;
use stream::{Answer, LineFacts};
use text::Page;

// The bytes that no row exceeds.
pub const ROW: usize = 64;

// Puts the first row, which names the columns, at the front of a buffer.
pub fn header(out: &mut [u8]) -> usize
    ensures { AtFront (row_if_room (length out.old) header_row) result out.old out.new }
{
    if out.len() < ROW {
        return 0;
    }
    let mut page = Page::new(out);
    page.put(b"mark answer number note\n");
    page.used
}

// Puts the row of a mark, counted from 1, and its answer at the front of a buffer: no row where there is no answer.
pub fn row(mark: u64, answer: Answer, out: &mut [u8]) -> usize
    ensures { AtFront (row_if_room (length out.old) (row_of mark answer)) result out.old out.new }
{
    if out.len() < ROW {
        return 0;
    }
    let mut page = Page::new(out);
    put_row(mark, answer, &mut page);
    page.used
}

fn put_row(mark: u64, answer: Answer, page: &mut Page<'_>)
    ensures { Writes (row_of mark answer) page.old page.new }
{
    match answer {
        Answer::Nothing => {}
        Answer::Line(facts) => line_row(mark, facts, page),
        Answer::Gap(_) => gap_row(mark, page),
        Answer::Refused(refusal) => refused_row(mark, refusal.0 as u64, page),
    }
}

fn line_row(mark: u64, facts: LineFacts, page: &mut Page<'_>)
    ensures { Writes (row_with mark (line_words facts)) page.old page.new }
{
    page.put_decimal(mark);
    page.put(b" ");
    put_line(facts, page);
    page.put(b"\n");
}

fn gap_row(mark: u64, page: &mut Page<'_>)
    ensures { Writes (row_with mark gap_words) page.old page.new }
{
    page.put_decimal(mark);
    page.put(b" GAP - ok\n");
}

fn refused_row(mark: u64, number: u64, page: &mut Page<'_>)
    ensures { Writes (row_with mark (refused_words number)) page.old page.new }
{
    page.put_decimal(mark);
    page.put(b" REFUSED - ");
    page.put_decimal(number);
    page.put(b"\n");
}

// What a row says of a line: kind, number, note.
fn put_line(facts: LineFacts, page: &mut Page<'_>)
    ensures { Writes (line_words facts) page.old page.new }
{
    let kind = facts.kind;
    put_kind(kind, page);
    page.put(b" ");
    page.put_decimal(facts.number as u64);
    page.put(b" ");
    put_note(facts.is_repaired(), page);
}

fn put_kind(kind: Kind, page: &mut Page<'_>)
    ensures { Writes (kind_word kind) page.old page.new }
{
    match kind {
        Kind::BL => page.put(b"BL"),
        Kind::BK => page.put(b"BK"),
        Kind::VL => page.put(b"VL"),
        Kind::SOF => page.put(b"SOF"),
        Kind::EOF => page.put(b"EOF"),
    }
}

fn put_note(repaired: bool, page: &mut Page<'_>)
    ensures { Writes (note_word repaired) page.old page.new }
{
    if repaired {
        page.put(b"repaired");
    } else {
        page.put(b"clean");
    }
}
