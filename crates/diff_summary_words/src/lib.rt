// The words of a summary of differences (paper 02, A13).
//
// In: a summary (crate diff_summary), and a page. Out: its text on the page, in ASCII, as far as there is room. Nothing is refused. Cost: linear in the
// text.

#![tactic(auto)]

ghost use Rattle.text.specs.Pages.{Writes};
ghost use Rattle.diff_summary_words.specs.SummaryWords.{count_text, places_text, summary_text};

use diff_summary::Summary;
use text::Page;

// Puts the summary: a count a line, and where the pixels are.
pub fn put_summary(summary: Summary, page: &mut Page<'_>)
    ensures { Writes (summary_text summary) page.old page.new }
{
    put_count(b"lines only in the first capture: ", summary.first, page);
    put_count(b"lines only in the second capture: ", summary.second, page);
    put_count(
        b"lines of two kinds (5 where only one capture has borders): ",
        summary.kinds,
        page,
    );
    put_count(b"pixels that differ: ", summary.pixels, page);
    put_places(summary, page);
}

// Puts where the pixels are, and by how much they differ, where there are any.
fn put_places(summary: Summary, page: &mut Page<'_>)
    ensures { Writes (places_text summary) page.old page.new }
{
    if summary.pixels == 0 {
        return;
    }
    put_count(b"lines they are in: ", summary.lines, page);
    put_count(b"first of these lines: ", summary.least as u64, page);
    put_count(b"last of these lines: ", summary.last as u64, page);
    put_count(b"greatest difference: ", summary.most as u64, page);
}

// Puts words, a number, and a newline.
fn put_count(words: &[u8], n: u64, page: &mut Page<'_>)
    ensures { Writes (count_text words.now n) page.old page.new }
{
    page.put(words);
    page.put_decimal(n);
    page.put(b"\n");
}
