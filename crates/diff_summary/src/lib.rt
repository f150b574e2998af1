// A summary of the differences between two lists of lines (paper 02, A13).
//
// In: two lists (crate line_records). Out: how many lines one list only holds, how many numbers have two kinds, how many pixels differ, in how many
// lines and by how much at most. Nothing is refused. Cost: linear.

#![tactic(auto)]

ghost use Rattle.std.specs.Prelude.{◌≡◌, [], ◌≤◌, eqb, length};
ghost use Rattle.line_records.specs.Lines.{line_size, front_line, full_lines};
ghost use Rattle.diff_records.specs.Difference.{both_kinds, both_bytes, unless, places_from, between_lines, differences};
ghost use Rattle.diff_records.specs.Next.{next_differences};
ghost use Rattle.diff_summary.specs.Summary.{fresh, with_counts, lines_with, least_with, with_pixel, with_change, with_differences, summary_of};

use counts::one_more;
use diff_change::Change;
use line_records::{HEAD, LINE, NO_LINE};

// The lines that the first and the second list only hold, and the numbers with two kinds; the pixels that differ, the lines they are in, the
// first and the last of these, and the most that two of them differ by.
#[derive(Clone, Copy)]
pub struct Summary {
    pub first: u64,
    pub second: u64,
    pub kinds: u64,
    pub pixels: u64,
    pub lines: u64,
    pub least: usize,
    pub last: usize,
    pub most: u8,
}

// The summary of all differences between two lists of lines (crate line_records), number after number.
pub fn summed(first: &[u8], second: &[u8]) -> Summary
    ensures { result ≡ summary_of (differences (full_lines first.now) (full_lines second.now)) }
{
    let mut s = Summary::new();
    let mut i: usize = 0;
    let mut j: usize = 0;
    // Not a for: each turn goes on by how far the next number reaches in each list.
    loop {
        let a = &first[i..];
        let b = &second[j..];
        let n = line_records::next_number(a);
        let m = line_records::next_number(b);
        let far = diff_records::how_far(n, m);
        let other = diff_records::how_far(m, n);
        if far + other == 0 {
            return s;
        }
        s = s.with_next(a, b);
        i += far;
        j += other;
    }
}

impl Summary {
    // Nothing differs.
    fn new() -> Summary
        ensures { result ≡ fresh }
    {
        Summary {
            first: 0,
            second: 0,
            kinds: 0,
            pixels: 0,
            lines: 0,
            least: 0,
            last: 0,
            most: 0,
        }
    }

    // With what differs of the next number.
    fn with_next(self, a: &[u8], b: &[u8]) -> Summary
        ensures { result ≡ with_differences self (next_differences a.now b.now) }
    {
        let n = line_records::next_number(a);
        let m = line_records::next_number(b);
        if n < m {
            return self.count(Change::First(n));
        }
        if m < n {
            return self.count(Change::Second(m));
        }
        if n < NO_LINE {
            return self.with_between(n, a, b);
        }
        self
    }

    // With what differs between two lines of one number.
    fn with_between(self, n: usize, a: &[u8], b: &[u8]) -> Summary
        requires { (line_size ≤ length a.now) × (line_size ≤ length b.now) × (n ≡ (front_line a.now).number) }
        ensures { result ≡ with_differences self (between_lines (front_line a.now) (front_line b.now)) }
    {
        let s = self.with_kinds(n, a[0], b[0]);
        s.with_places(n, &a[HEAD..LINE], &b[HEAD..LINE])
    }

    // With both kinds, where they differ.
    fn with_kinds(self, n: usize, x: u8, y: u8) -> Summary
        ensures { result ≡ with_differences self (unless (eqb x y) (both_kinds n x y) []) }
    {
        if x == y {
            return self;
        }
        self.count(Change::Kinds(n, x, y))
    }

    // With the places where two bodies differ.
    fn with_places(self, n: usize, a: &[u8], b: &[u8]) -> Summary
        requires { length a.now ≡ length b.now }
        ensures { result ≡ with_differences self (places_from n 0 a.now b.now) }
    {
        let mut s = self;
        for (p, (x, y)) in a.iter().zip(b).enumerate() {
            s = s.with_place(n, p, *x, *y);
        }
        s
    }

    // With a place and both bytes, where they differ.
    fn with_place(self, n: usize, p: usize, x: u8, y: u8) -> Summary
        ensures { result ≡ with_differences self (unless (eqb x y) (both_bytes n p x y) []) }
    {
        if x == y {
            return self;
        }
        self.count(Change::Bytes(n, p, x, y))
    }

    // With one difference more.
    fn count(self, change: Change) -> Summary
        ensures { result ≡ with_change self change }
    {
        match change {
            Change::First(_) => self.with(one_more(self.first), self.second, self.kinds),
            Change::Second(_) => self.with(self.first, one_more(self.second), self.kinds),
            Change::Kinds(_, _, _) => self.with(self.first, self.second, one_more(self.kinds)),
            Change::Bytes(number, _, x, y) => self.pixel(number, x.abs_diff(y)),
        }
    }

    // With these counts, and its pixels as they are.
    fn with(self, first: u64, second: u64, kinds: u64) -> Summary
        ensures { result ≡ with_counts self first second kinds }
    {
        Summary {
            first,
            second,
            kinds,
            ..self
        }
    }

    // With one pixel more, of the line with a number; the pixels of a line come one after another.
    fn pixel(self, number: usize, by: u8) -> Summary
        ensures { result ≡ with_pixel self number by }
    {
        let pixels = one_more(self.pixels);
        let lines = self.lines_with(number);
        let least = self.least_with(number);
        let most = self.most.max(by);
        Summary {
            pixels,
            lines,
            least,
            last: number,
            most,
            ..self
        }
    }

    fn lines_with(self, number: usize) -> u64
        ensures { result ≡ lines_with self number }
    {
        if self.pixels == 0 {
            return 1;
        }
        if number == self.last {
            return self.lines;
        }
        one_more(self.lines)
    }

    fn least_with(self, number: usize) -> usize
        ensures { result ≡ least_with self number }
    {
        if self.pixels == 0 {
            return number;
        }
        self.least
    }
}
