// What is told of the frames of a capture, rendered into a lent buffer: a line for each that is complete, broken or cut off.
//
// In: the tally's news of a frame. Out: the line's bytes at the front of the buffer, and how many they are. Nothing is refused: a buffer of fewer
// than ROOM bytes stays as it was, and the count is 0. Cost: linear in the line.

#![tactic(auto)]

ghost use Rattle.std.specs.Prelude.{◌≡◌, length};
ghost use Rattle.text.specs.Pages.{Writes};
ghost use Rattle.text.specs.Put.{AtFront};
ghost use Rattle.list_news.specs.NewsLines.{frame_words, borders_word, own_number, broken_line_words, reason_words, complete_line, broken_line_of, news_line, news_if_room};

use frame_layout::Borders;
use frame_tally::News;
use refusal::Refusal;
use text::Page;

// The bytes that no line on a frame exceeds.
pub const ROOM: usize = 144;

// Puts the line of a frame at the front of a buffer: none where there is no news.
pub fn news(news: News, out: &mut [u8]) -> usize
    ensures { AtFront (news_if_room (length out.old) (news_line news)) result out.old out.new }
{
    if out.len() < ROOM {
        return 0;
    }
    let mut page = Page::new(out);
    put_line(news, &mut page);
    page.used
}

fn put_line(news: News, page: &mut Page<'_>)
    ensures { Writes (news_line news) page.old page.new }
{
    match news {
        News::Nothing => {}
        News::Complete(frame, borders, mark) => {
            put_complete(frame, borders, mark, page);
            page.put(b"\n");
        }
        News::Broken(frame, mark, refusal, own) => {
            put_broken(frame, mark, refusal, own, page);
            page.put(b"\n");
        }
        News::Cut(frame) => {
            put_frame(frame, page);
            page.put(b" cut off by the end of the capture\n");
        }
    }
}

fn put_complete(frame: u64, borders: Option<Borders>, mark: u64, page: &mut Page<'_>)
    ensures { Writes (complete_line frame borders mark) page.old page.new }
{
    put_frame(frame, page);
    page.put(b" complete, borders ");
    put_borders(borders, page);
    page.put(b", last line at mark ");
    page.put_decimal(mark);
}

fn put_broken(frame: u64, mark: u64, refusal: Refusal, own: Option<Refusal>, page: &mut Page<'_>)
    ensures { Writes (broken_line_of frame mark refusal.0 (own_number own)) page.old page.new }
{
    put_frame(frame, page);
    page.put(b" broken at mark ");
    page.put_decimal(mark);
    page.put(b": ");
    page.put_decimal(refusal.0 as u64);
    put_reason(refusal, own, page);
}

fn put_frame(frame: u64, page: &mut Page<'_>)
    ensures { Writes (frame_words frame) page.old page.new }
{
    page.put(b"frame ");
    page.put_decimal(frame);
}

fn put_borders(borders: Option<Borders>, page: &mut Page<'_>)
    ensures { Writes (borders_word borders) page.old page.new }
{
    match borders {
        None => page.put(b"unsettled"),
        Some(borders) => match borders {
            Borders::On => page.put(b"on"),
            Borders::Off => page.put(b"off"),
        },
    }
}

// Why a frame broke.
fn put_reason(refusal: Refusal, own: Option<Refusal>, page: &mut Page<'_>)
    ensures { Writes (reason_words refusal.0 (own_number own)) page.old page.new }
{
    if refusal == Refusal::NOT_THE_LINE_DUE {
        return page.put(b", not the line due");
    }
    if refusal == Refusal::BROKEN_LINE {
        return put_broken_line(own, page);
    }
}

fn put_broken_line(own: Option<Refusal>, page: &mut Page<'_>)
    ensures { Writes (broken_line_words (own_number own)) page.old page.new }
{
    page.put(b", a broken line (its answer: ");
    page.put_decimal(own_number(own) as u64);
    page.put(b")");
}

// A mark's own answer by its number, as the line on a frame tells it; 0 where it was not refused.
fn own_number(own: Option<Refusal>) -> u8
    ensures { result ≡ own_number own }
{
    match own {
        None => 0,
        Some(refusal) => refusal.0,
    }
}
