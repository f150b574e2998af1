// The rows of a table of half-line means (paper 02, A10), in ASCII.
//
// In: a line's number, the sensor's two means, what is said of its halves, and a page. Out: the row on the page:
// `47 128 126 127.984375 126.015625 1 -1`, the number, the sensor's means, the exact means in decimal, and the differences, 64 times the
// sensor's mean minus the sum. A refusal has the row `47 refused: 9, bad gap`. Nothing is refused: a row is
// written as far as there is room. Cost: linear in the row.

#![tactic(auto)]

ghost use Rattle.text.specs.Pages.{Writes};
ghost use Rattle.half_means.specs.HalfMeans.{difference};
ghost use Rattle.mean_rows.specs.MeanRows.{places, signed, means_header, mean_text, start_words, means_words, differences_words, given_row, gap_refusal_words, refused_row, means_row};

use half_means::{HALF, Halves, Sums};
use refusal::Refusal;
use text::Page;

// The bytes that no row exceeds.
pub const ROOM: usize = 192;

// The millionths of a 64th.
const MILLIONTHS: u32 = 15625;

// Puts the first row, which names the columns.
pub fn put_header(page: &mut Page<'_>)
    ensures { Writes means_header page.old page.new }
{
    page.put(b"line sensor1 sensor2 mean1 mean2 difference1 difference2\n");
}

// Puts the row of a visible line.
pub fn put_row(
    number: u16,
    first: u8,
    second: u8,
    halves: Result<Halves, Refusal>,
    page: &mut Page<'_>,
)
    ensures { Writes (means_row number first second halves) page.old page.new }
{
    match halves {
        Ok(given) => put_given(number, first, second, given.sums, page),
        Err(refusal) => put_refused(number, refusal, page),
    }
}

fn put_given(number: u16, first: u8, second: u8, sums: Sums, page: &mut Page<'_>)
    ensures { Writes (given_row number first second sums) page.old page.new }
{
    put_start(number, first, second, page);
    put_means(sums, page);
    put_differences(first, second, sums, page);
}

// The number and the sensor's means.
fn put_start(number: u16, first: u8, second: u8, page: &mut Page<'_>)
    ensures { Writes (start_words number first second) page.old page.new }
{
    page.put_decimal(number as u64);
    page.put(b" ");
    page.put_decimal(first as u64);
    page.put(b" ");
    page.put_decimal(second as u64);
    page.put(b" ");
}

// The exact means.
fn put_means(sums: Sums, page: &mut Page<'_>)
    ensures { Writes (means_words sums) page.old page.new }
{
    put_mean(sums.first, page);
    page.put(b" ");
    put_mean(sums.second, page);
    page.put(b" ");
}

fn put_differences(first: u8, second: u8, sums: Sums, page: &mut Page<'_>)
    ensures { Writes (differences_words first second sums) page.old page.new }
{
    put_difference(first, sums.first, page);
    page.put(b" ");
    put_difference(second, sums.second, page);
    page.put(b"\n");
}

// A sum divided by 64, in decimal: the fraction of a 64th ends after six digits.
fn put_mean(sum: u16, page: &mut Page<'_>)
    ensures { Writes (mean_text sum) page.old page.new }
{
    let whole = sum / HALF;
    let part = sum % HALF;
    page.put_decimal(whole as u64);
    page.put(b".");
    put_places(part as u32 * MILLIONTHS, page);
}

// The last six decimal digits of a number.
fn put_places(n: u32, page: &mut Page<'_>)
    ensures { Writes (places 6 n) page.old page.new }
{
    let tens = n / 10;
    let hundreds = tens / 10;
    let thousands = hundreds / 10;
    let ten_thousands = thousands / 10;
    let hundred_thousands = ten_thousands / 10;
    let digits = [
        b'0' + (hundred_thousands % 10) as u8,
        b'0' + (ten_thousands % 10) as u8,
        b'0' + (thousands % 10) as u8,
        b'0' + (hundreds % 10) as u8,
        b'0' + (tens % 10) as u8,
        b'0' + (n % 10) as u8,
    ];
    let all: &[u8] = &digits;
    page.put(all);
}

// 64 times the sensor's mean minus the sum, with its sign.
fn put_difference(byte: u8, sum: u16, page: &mut Page<'_>)
    ensures { Writes (signed (difference byte sum)) page.old page.new }
{
    let scaled = HALF * byte as u16;
    if scaled < sum {
        page.put(b"-");
        return page.put_decimal((sum - scaled) as u64);
    }
    page.put_decimal((scaled - sum) as u64);
}

fn put_refused(number: u16, refusal: Refusal, page: &mut Page<'_>)
    ensures { Writes (refused_row number refusal.0) page.old page.new }
{
    page.put_decimal(number as u64);
    page.put(b" refused: ");
    page.put_decimal(refusal.0 as u64);
    put_reason(refusal, page);
    page.put(b"\n");
}

// The words of a gap's refusal.
fn put_reason(refusal: Refusal, page: &mut Page<'_>)
    ensures { Writes (gap_refusal_words refusal.0) page.old page.new }
{
    if refusal == Refusal::BAD_GAP {
        page.put(b", bad gap");
    }
}
