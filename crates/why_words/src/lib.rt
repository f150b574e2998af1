// The words of a reason (paper 02, A9).
//
// In: what is known of a mark, and a page. Out: the words on the page, as far as there is room. Nothing is refused. Cost: linear in the words.

#![tactic(auto)]

ghost use Rattle.text.specs.Pages.{Writes};
ghost use Rattle.why_words.specs.ReasonWords.{kind_in_words, line_name, with_line_name, sum_word, sum_words, damaged_words, reserved_words, unfinished_words, length_words, bad_byte_words, end_words, count_words, long_line_words, answer_words, long_gap_words, good_gap_words, refused_number, explained_words};

use line_code::Kind;
use reason::{FailedSums, Reason};
use text::Page;

// Puts the words of a reason: whether the mark goes on beyond what is looked at, the number that the reader refuses it with, its code
// and its reason. The number is 0 for a good mark, and no option of a Refusal: the words are promised for every number, and put where it is 0 too.
pub fn put_explained(cut: bool, refusal: u8, code: u8, why: Reason, page: &mut Page<'_>)
    ensures { Writes (explained_words cut refusal code why) page.old page.new }
{
    match why {
        Reason::GoodLine => put_line(b"good ", code, page),
        Reason::GoodGap => put_good_gap(cut, refusal, page),
        Reason::DamagedCode(byte, sums) => put_damaged(byte, sums, page),
        Reason::ReservedCode => put_reserved(code, page),
        Reason::UnfinishedLine => put_unfinished(cut, refusal, code, page),
        Reason::WrongLength(found, wanted) => {
            put_length(code, found as u64, wanted as u64, page)
        }
        Reason::BadNumber(place, byte) => put_bad_byte(
            b"refused 5: ",
            code,
            place as u64,
            b" of its number is ",
            byte,
            page,
        ),
        Reason::BadBody(place, byte) => put_bad_byte(
            b"refused 6: ",
            code,
            place as u64,
            b" of its body is ",
            byte,
            page,
        ),
        Reason::NoEndOfLine(next) => put_end(code, next, page),
        Reason::EndWithoutLine => page.put(b"refused 8: end of line without a line before it"),
        Reason::BadGap(place, _) => put_counted(
            b"refused 9: end of line, a bad gap from its nibble ",
            place as u64,
            b" on",
            page,
        ),
        Reason::ShortGap(length) => put_counted(
            b"refused 9: end of line, a gap of ",
            length as u64,
            b" nibbles, 4 at least are wanted",
            page,
        ),
        Reason::Refused(refused) => put_refused(refused.0, page),
    }
}

// Words, and what a mark with this code begins.
fn put_line(words: &[u8], code: u8, page: &mut Page<'_>)
    ensures { Writes (with_line_name words.now code) page.old page.new }
{
    page.put(words);
    let reading = line_code::read(code);
    let kind = reading.kind();
    put_line_name(kind, page);
}

fn put_line_name(kind: Option<Kind>, page: &mut Page<'_>)
    ensures { Writes (line_name kind) page.old page.new }
{
    match kind {
        None => page.put(b"line"),
        Some(k) => put_kind_in_words(k, page),
    }
}

fn put_kind_in_words(kind: Kind, page: &mut Page<'_>)
    ensures { Writes (kind_in_words kind) page.old page.new }
{
    match kind {
        Kind::BL => page.put(b"blank line (BL)"),
        Kind::BK => page.put(b"black line (BK)"),
        Kind::VL => page.put(b"visible line (VL)"),
        Kind::SOF => page.put(b"start of frame (SOF)"),
        Kind::EOF => page.put(b"end of frame (EOF)"),
    }
}

fn put_good_gap(cut: bool, refusal: u8, page: &mut Page<'_>)
    ensures { Writes (good_gap_words cut refusal) page.old page.new }
{
    if cut {
        put_long_gap(refusal, page);
    } else {
        page.put(b"good end of line");
    }
}

// An end of line whose gap is longer than what is looked at.
fn put_long_gap(refusal: u8, page: &mut Page<'_>)
    ensures { Writes (long_gap_words refusal) page.old page.new }
{
    put_answer(refusal, page);
    page.put(b"end of line with a gap of more than 1000 bytes: a signal that was lost?");
}

// The reader's answer, before what it answers.
fn put_answer(refusal: u8, page: &mut Page<'_>)
    ensures { Writes (answer_words refusal) page.old page.new }
{
    if refusal == 0 {
        page.put(b"good ");
    } else {
        put_refused(refusal, page);
        page.put(b": ");
    }
}

// A refusal's number alone.
fn put_refused(refusal: u8, page: &mut Page<'_>)
    ensures { Writes (refused_number refusal) page.old page.new }
{
    page.put(b"refused ");
    page.put_decimal(refusal as u64);
}

fn put_damaged(code: u8, sums: FailedSums, page: &mut Page<'_>)
    ensures { Writes (damaged_words code sums) page.old page.new }
{
    page.put(b"refused 1: damaged code ");
    page.put_hex(code);
    page.put(b", its parity fails in");
    put_sums(sums, page);
}

// The parity sums that fail.
fn put_sums(sums: FailedSums, page: &mut Page<'_>)
    ensures { Writes (sum_words sums) page.old page.new }
{
    put_if(sums.p0, b" P0", page);
    put_if(sums.p1, b" P1", page);
    put_if(sums.p2, b" P2", page);
    put_if(sums.p3, b" P3", page);
}

fn put_if(fails: bool, name: &[u8], page: &mut Page<'_>)
    ensures { Writes (sum_word fails name.now) page.old page.new }
{
    if fails {
        page.put(name);
    }
}

fn put_reserved(code: u8, page: &mut Page<'_>)
    ensures { Writes (reserved_words code) page.old page.new }
{
    page.put(b"refused 2: reserved code ");
    page.put_hex(code);
}

// A line that the capture's end cuts off, or one longer than what is looked at.
fn put_unfinished(cut: bool, refusal: u8, code: u8, page: &mut Page<'_>)
    ensures { Writes (unfinished_words cut refusal code) page.old page.new }
{
    if cut {
        put_long_line(refusal, code, page);
    } else {
        put_line(b"refused 3: ", code, page);
        page.put(b", cut off by the end of the capture");
    }
}

fn put_long_line(refusal: u8, code: u8, page: &mut Page<'_>)
    ensures { Writes (long_line_words refusal code) page.old page.new }
{
    put_refused(refusal, page);
    put_line(b": ", code, page);
    page.put(b" of more than 1000 bytes: a signal that was lost?");
}

fn put_length(code: u8, found: u64, wanted: u64, page: &mut Page<'_>)
    ensures { Writes (length_words code found wanted) page.old page.new }
{
    put_line(b"refused 4: ", code, page);
    page.put(b" of ");
    page.put_decimal(found);
    page.put(b" nibbles, not ");
    page.put_decimal(wanted);
    page.put(b": a clip that slipped?");
}

// A line with a bad byte: words, its place, words, and the byte.
fn put_bad_byte(words: &[u8], code: u8, place: u64, part: &[u8], byte: u8, page: &mut Page<'_>)
    ensures { Writes (bad_byte_words words.now code place part.now byte) page.old page.new }
{
    put_line(words, code, page);
    page.put(b", byte ");
    page.put_decimal(place);
    page.put(part);
    page.put_hex(byte);
}

fn put_end(code: u8, next: u8, page: &mut Page<'_>)
    ensures { Writes (end_words code next) page.old page.new }
{
    put_line(b"refused 7: ", code, page);
    page.put(b", not ended: the next mark has the code ");
    page.put_hex(next);
}

// A number among words.
fn put_counted(words: &[u8], count: u64, rest: &[u8], page: &mut Page<'_>)
    ensures { Writes (count_words words.now count rest.now) page.old page.new }
{
    page.put(words);
    page.put_decimal(count);
    page.put(rest);
}
