// What is told of a capture's signal, by its counts: the refused marks, the repairs and the periods.
//
// In: the signal's counts, and a page. Out: the lines on the page, as far as there is room. A count that is 0 has no line. Nothing is refused. Cost: linear
// in the lines.

#![tactic(auto)]

ghost use Rattle.text.specs.Pages.{Writes};
ghost use Rattle.signal_report.specs.SignalReport.{count_line, numbered_line, refused_count, refused_codes, broken_lines, refused_ends, refused_lines, bit_line, low_bits, high_bits, repaired_lines, range_words, lines_noun, period_line, period_lines, signal_lines};

use signal_tally::Signal;
use spacing::Spacing;
use text::Page;

// Puts the lines on a signal.
pub fn put_signal(signal: Signal, page: &mut Page<'_>)
    ensures { Writes (signal_lines signal) page.old page.new }
{
    put_refused(signal, page);
    put_repaired(signal, page);
    let spacing = signal.spacing;
    put_periods(spacing, page);
}

// Puts a line with a count, where that is not 0: the words before it, the count, the words after it.
pub fn put_count(before: &[u8], count: u64, after: &[u8], page: &mut Page<'_>)
    ensures { Writes (count_line before.now count after.now) page.old page.new }
{
    if count == 0 {
        return;
    }
    page.put(before);
    page.put_decimal(count);
    page.put(after);
}

// Refused marks, by number: by their codes, lines, and ends of lines.
fn put_refused(signal: Signal, page: &mut Page<'_>)
    ensures { Writes (refused_lines signal.refused) page.old page.new }
{
    put_refused_codes(signal, page);
    put_broken_lines(signal, page);
    put_refused_ends(signal, page);
}

fn put_refused_codes(signal: Signal, page: &mut Page<'_>)
    ensures { Writes (refused_codes signal.refused) page.old page.new }
{
    let refused = signal.refused;
    put_refused_count(1, refused[1], b", damaged code\n", page);
    put_refused_count(2, refused[2], b", reserved code\n", page);
}

fn put_broken_lines(signal: Signal, page: &mut Page<'_>)
    ensures { Writes (broken_lines signal.refused) page.old page.new }
{
    let refused = signal.refused;
    put_refused_count(3, refused[3], b", unfinished line\n", page);
    put_refused_count(4, refused[4], b", wrong length\n", page);
    put_refused_count(5, refused[5], b", bad number\n", page);
    put_refused_count(6, refused[6], b", bad byte in the body\n", page);
    put_refused_count(7, refused[7], b", no end of line\n", page);
}

fn put_refused_ends(signal: Signal, page: &mut Page<'_>)
    ensures { Writes (refused_ends signal.refused) page.old page.new }
{
    let refused = signal.refused;
    put_refused_count(8, refused[8], b", end of line without a line\n", page);
    put_refused_count(9, refused[9], b", bad gap\n", page);
}

fn put_refused_count(number: u64, count: u64, after: &[u8], page: &mut Page<'_>)
    ensures { Writes (refused_count number count after.now) page.old page.new }
{
    put_numbered(b"refused: ", number, count, after, page);
}

// Puts a line with a count of what has a number, where that count is not 0.
fn put_numbered(before: &[u8], number: u64, count: u64, after: &[u8], page: &mut Page<'_>)
    ensures { Writes (numbered_line before.now number count after.now) page.old page.new }
{
    if count == 0 {
        return;
    }
    page.put(before);
    page.put_decimal(number);
    page.put(b" x ");
    page.put_decimal(count);
    page.put(after);
}

// Repaired codes, by bit: the depot's tally of bad wires.
fn put_repaired(signal: Signal, page: &mut Page<'_>)
    ensures { Writes (repaired_lines signal.repaired) page.old page.new }
{
    put_low_bits(signal, page);
    put_high_bits(signal, page);
}

fn put_low_bits(signal: Signal, page: &mut Page<'_>)
    ensures { Writes (low_bits signal.repaired) page.old page.new }
{
    let repaired = signal.repaired;
    put_bit(0, repaired[0], page);
    put_bit(1, repaired[1], page);
    put_bit(2, repaired[2], page);
    put_bit(3, repaired[3], page);
}

fn put_high_bits(signal: Signal, page: &mut Page<'_>)
    ensures { Writes (high_bits signal.repaired) page.old page.new }
{
    let repaired = signal.repaired;
    put_bit(4, repaired[4], page);
    put_bit(5, repaired[5], page);
    put_bit(6, repaired[6], page);
    put_bit(7, repaired[7], page);
}

fn put_bit(bit: u64, count: u64, page: &mut Page<'_>)
    ensures { Writes (bit_line bit count) page.old page.new }
{
    put_numbered(b"repaired: bit ", bit, count, b"\n", page);
}

// The periods of the lines: a drifting clock shows in the last line.
fn put_periods(spacing: Spacing, page: &mut Page<'_>)
    ensures { Writes (period_lines spacing) page.old page.new }
{
    put_period(spacing.thirty, b" at 30 frames a second\n", page);
    put_period(spacing.twentyfive, b" at 25 frames a second\n", page);
    if spacing.others == 0 {
        return;
    }
    page.put(b"other periods: ");
    page.put_decimal(spacing.others);
    page.put(b", ");
    put_range(spacing, page);
}

// The lines at a period that has a name.
fn put_period(count: u64, rate: &[u8], page: &mut Page<'_>)
    ensures { Writes (period_line count rate.now) page.old page.new }
{
    if count == 0 {
        return;
    }
    page.put(b"period: ");
    page.put_decimal(count);
    put_noun(count, page);
    page.put(rate);
}

// What is counted: one line, or lines.
fn put_noun(count: u64, page: &mut Page<'_>)
    ensures { Writes (lines_noun count) page.old page.new }
{
    if count == 1 {
        page.put(b" line");
    } else {
        page.put(b" lines");
    }
}

// The least and the greatest of the other periods.
fn put_range(spacing: Spacing, page: &mut Page<'_>)
    ensures { Writes (range_words spacing) page.old page.new }
{
    page.put_decimal(spacing.least as u64);
    page.put(b" to ");
    page.put_decimal(spacing.greatest as u64);
    page.put(b" nibbles\n");
}
