// The differences between two lists of lines as rows of text, a number after another (paper 02, A13).
//
// In: what is left of two lists (crate line_records), and a lent buffer. Out: the rows of the next number's differences at the buffer's front, as
// crate diff_change_row puts them; where they end; and how far each list is passed. Where neither is, no number is left. So a caller that writes
// the rows and goes on from there writes one row for each difference of the lists, in their order. Nothing is refused: a buffer of ROOM has
// room for every number's rows; in a shorter one they are cut. Cost: linear in the line.

#![tactic(auto)]

ghost use Rattle.text.specs.Pages.{Writes};
ghost use Rattle.diff_records.specs.ReadBack.{differences_in};
ghost use Rattle.diff_rows.specs.Rows.{rows_text, RowsPut};

use profile::Profile;
use text::Page;

// The most bytes of one number's differences: both kinds, and every place.
const MOST: usize = diff_records::KINDS_SIZE + diff_records::BYTES_SIZE * Profile::WIDTH;

// The most bytes of a row, and of one number's rows.
const ROW: usize = 102;

pub const ROOM: usize = ROW * (1 + Profile::WIDTH);

// How far each list is passed, and where the rows end.
#[derive(Clone, Copy)]
pub struct Piece {
    pub first: usize,
    pub second: usize,
    pub end: usize,
}

// Puts the rows of the next number.
pub fn next_rows(a: &[u8], b: &[u8], out: &mut [u8]) -> Piece
    ensures { RowsPut a.now b.now out.old result out.new }
{
    let n = line_records::next_number(a);
    let m = line_records::next_number(b);
    let first = diff_records::how_far(n, m);
    let second = diff_records::how_far(m, n);
    let mut records = [0u8; MOST];
    let size = diff_records::put_next(a, b, &mut records, 0);
    let mut page = Page::new(out);
    put_rows(&records[..size], &mut page);
    Piece {
        first,
        second,
        end: page.used,
    }
}

// Writes a row for each difference that some bytes tell.
fn put_rows(records: &[u8], page: &mut Page<'_>)
    ensures { Writes (rows_text (differences_in records.now)) page.old page.new }
{
    let mut i: usize = 0;
    // Not a for: each turn goes on by the size of the difference there.
    while i < records.len() {
        let rest = &records[i..];
        diff_change_row::put_row(diff_change::front(rest), page);
        let size = diff_change::front_size(rest);
        if rest.len() < size {
            return;
        }
        i += size;
    }
}
