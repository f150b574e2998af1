// The differences of one number between two lists of lines (paper 02, A13): which number is next, and the bytes of what differs there.
//
// In: what is left of each list (crate line_records). Out: the differences of the least number that either starts with, each as a byte and the
// number in two bytes, then: for 1 or 2 (only the first or the second list has it) kind and body; for 3 both kinds; for 4 the place from 0, in
// two bytes, and both bytes; high byte and first list first; and how far that number reaches in each list. Bodies are not judged. Nothing is
// refused: bytes that have no room are left out, as crate text puts them. Cost: linear in two lines and what is put.

#![tactic(auto)]

ghost use Rattle.std.specs.Prelude.{◌≡◌, [], ◌∷◌, ◌≤◌, ◌<◌, eqb, length};
ghost use Rattle.text.specs.Put.{Puts};
ghost use Rattle.profile.specs.Profile.{width};
ghost use Rattle.line_records.specs.Lines.{line_size, no_line, front_line};
ghost use Rattle.diff_records.specs.Difference.{both_kinds, both_bytes, whole_line, unless, places_from, between_lines, encoded_all};
ghost use Rattle.diff_records.specs.Next.{next_differences, how_far, unequal, different};

use line_records::{HEAD, LINE, NO_LINE};
use text::put;

// What a difference is of: its first byte.
pub const ONLY_FIRST: u8 = 1;

pub const ONLY_SECOND: u8 = 2;

pub const BOTH_KINDS: u8 = 3;

const BOTH_BYTES: u8 = 4;

// The bytes of a line given whole, of both kinds, and of both bytes at a place.
pub const WHOLE_SIZE: usize = 360;

pub const KINDS_SIZE: usize = 5;

pub const BYTES_SIZE: usize = 7;

// How far a list is passed, by the number that it starts with and the one that the other does.
pub fn how_far(own: usize, other: usize) -> usize
    ensures { result ≡ how_far own other }
{
    if other < own {
        return 0;
    }
    if own < NO_LINE {
        return LINE;
    }
    0
}

// The bytes of the next number's differences.
pub fn next_size(a: &[u8], b: &[u8]) -> usize
    ensures { result ≡ length (encoded_all (next_differences a.now b.now)) }
{
    let n = line_records::next_number(a);
    let m = line_records::next_number(b);
    if n < m {
        return WHOLE_SIZE;
    }
    if m < n {
        return WHOLE_SIZE;
    }
    if n < NO_LINE {
        return between_size(a, b);
    }
    0
}

// Puts the next number's differences at a place, and gives the place after them; as each function below.
pub fn put_next(a: &[u8], b: &[u8], buffer: &mut [u8], at: usize) -> usize
    ensures { Puts buffer.old at (encoded_all (next_differences a.now b.now)) result buffer.new }
{
    let n = line_records::next_number(a);
    let m = line_records::next_number(b);
    if n < m {
        return put_line(ONLY_FIRST, n, a, buffer, at);
    }
    if m < n {
        return put_line(ONLY_SECOND, m, b, buffer, at);
    }
    if n < NO_LINE {
        return put_between(n, a, b, buffer, at);
    }
    at
}

// The bytes of what differs between two lines of one number.
fn between_size(a: &[u8], b: &[u8]) -> usize
    requires { (line_size ≤ length a.now) × (line_size ≤ length b.now) }
    ensures { result ≡ length (encoded_all (between_lines (front_line a.now) (front_line b.now))) }
{
    KINDS_SIZE * unequal(a[0], b[0]) + BYTES_SIZE * different(&a[HEAD..LINE], &b[HEAD..LINE])
}

// How many places of two bodies differ. By their places, and with no branch on the bytes, so that many are compared at once: by filter and count
// a comparison of whole frames takes up to half as long again.
fn different(a: &[u8], b: &[u8]) -> usize
    requires { (length a.now ≡ width) × (length b.now ≡ width) }
    ensures { (result ≡ different a.now b.now) × (result ≤ width) }
{
    let mut count: usize = 0;
    for p in 0..a.len() {
        count += unequal(a[p], b[p]);
    }
    count
}

// 1 where two bytes differ.
fn unequal(x: u8, y: u8) -> usize
    ensures { (result ≡ unequal x y) × (result ≤ 1) }
{
    if x == y {
        return 0;
    }
    1
}

// A line whole: its number, kind and body.
fn put_line(tag: u8, n: usize, line: &[u8], buffer: &mut [u8], at: usize) -> usize
    requires { (line_size ≤ length line.now) × (n ≡ (front_line line.now).number) × (n < no_line) }
    ensures { Puts buffer.old at (tag ∷ whole_line (front_line line.now)) result buffer.new }
{
    let head = [tag, (n / 256) as u8, (n % 256) as u8, line[0]];
    let body_at = put(&head, buffer, at);
    put(&line[HEAD..LINE], buffer, body_at)
}

// What differs between two lines of one number: the kinds, then the places.
fn put_between(n: usize, a: &[u8], b: &[u8], buffer: &mut [u8], at: usize) -> usize
    requires { (line_size ≤ length a.now) × (line_size ≤ length b.now) × (n ≡ (front_line a.now).number) × (n < no_line) }
    ensures { Puts buffer.old at (encoded_all (between_lines (front_line a.now) (front_line b.now))) result buffer.new }
{
    let places_at = put_kinds(n, a[0], b[0], buffer, at);
    put_places(n, &a[HEAD..LINE], &b[HEAD..LINE], buffer, places_at)
}

// Both kinds, where they differ.
fn put_kinds(n: usize, x: u8, y: u8, buffer: &mut [u8], at: usize) -> usize
    requires { n < no_line }
    ensures { Puts buffer.old at (encoded_all (unless (eqb x y) (both_kinds n x y) [])) result buffer.new }
{
    if x == y {
        return at;
    }
    let difference = [BOTH_KINDS, (n / 256) as u8, (n % 256) as u8, x, y];
    put(&difference, buffer, at)
}

// The places where two bodies differ.
fn put_places(n: usize, a: &[u8], b: &[u8], buffer: &mut [u8], at: usize) -> usize
    requires { (n < no_line) × (length a.now ≡ width) × (length b.now ≡ width) }
    ensures { Puts buffer.old at (encoded_all (places_from n 0 a.now b.now)) result buffer.new }
{
    let mut next = at;
    for (p, (x, y)) in a.iter().zip(b).enumerate() {
        next = put_place(n, p, *x, *y, buffer, next);
    }
    next
}

// A place and both bytes, where they differ.
fn put_place(n: usize, p: usize, x: u8, y: u8, buffer: &mut [u8], at: usize) -> usize
    requires { (n < no_line) × (p < no_line) }
    ensures { Puts buffer.old at (encoded_all (unless (eqb x y) (both_bytes n p x y) [])) result buffer.new }
{
    if x == y {
        return at;
    }
    let difference = [
        BOTH_BYTES,
        (n / 256) as u8,
        (n % 256) as u8,
        (p / 256) as u8,
        (p % 256) as u8,
        x,
        y,
    ];
    put(&difference, buffer, at)
}
