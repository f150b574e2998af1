// A difference between two lists of lines as a row of text (paper 02, A13).
//
// In: a difference (crate diff_change), and a page (crate text). Out: the row written on the page in ASCII, after what it has; where its room ends
// before the row does, the rest is left out. Nothing is refused. Cost: linear in the row.

#![tactic(auto)]

ghost use Rattle.text.specs.Pages.{Writes};
ghost use Rattle.diff_change_row.specs.ChangeRow.{change_row, line_word, kind_word, kinds_words, pair_words};

use diff_change::Change;
use line_code::Kind;
use text::Page;

// Writes the row of a difference on the page.
pub fn put_row(change: Change, page: &mut Page<'_>)
    ensures { Writes (change_row change) page.old page.new }
{
    match change {
        Change::First(number) => {
            put_line(number, page);
            page.put(b" only in the first capture\n")
        }
        Change::Second(number) => {
            put_line(number, page);
            page.put(b" only in the second capture\n")
        }
        Change::Kinds(number, x, y) => {
            put_line(number, page);
            page.put(b" kind");
            put_kinds(x, y, page)
        }
        Change::Bytes(number, place, x, y) => {
            put_line(number, page);
            page.put(b" pixel ");
            page.put_decimal(place as u64);
            put_pair(x, y, page)
        }
    }
}

fn put_line(number: usize, page: &mut Page<'_>)
    ensures { Writes (line_word number) page.old page.new }
{
    page.put(b"line ");
    page.put_decimal(number as u64);
}

// Both kinds in words.
fn put_kinds(x: u8, y: u8, page: &mut Page<'_>)
    ensures { Writes (kinds_words x y) page.old page.new }
{
    page.put(b": ");
    put_kind(x, page);
    page.put(b", then ");
    put_kind(y, page);
    page.put(b"\n");
}

// A kind in words, or any other byte as it is.
fn put_kind(kind: u8, page: &mut Page<'_>)
    ensures { Writes (kind_word kind) page.old page.new }
{
    if kind == Kind::BL.number() {
        return page.put(b"blank");
    }
    if kind == Kind::BK.number() {
        return page.put(b"black");
    }
    if kind == Kind::VL.number() {
        return page.put(b"visible");
    }
    if kind == Kind::SOF.number() {
        return page.put(b"start of frame");
    }
    if kind == Kind::EOF.number() {
        return page.put(b"end of frame");
    }
    page.put_decimal(kind as u64);
}

fn put_pair(x: u8, y: u8, page: &mut Page<'_>)
    ensures { Writes (pair_words x y) page.old page.new }
{
    page.put(b": ");
    page.put_decimal(x as u64);
    page.put(b", then ");
    page.put_decimal(y as u64);
    page.put(b"\n");
}
