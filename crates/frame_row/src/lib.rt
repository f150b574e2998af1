// The row of a line of a profile 0 frame: what is kept of it (paper 02, A1, A2 and A13). For a picture that is a visible line's 356 pixels, as sent,
// or in order where the head sends odd pixels first, and nothing of any other line; for a comparison every line whole, as crate line_records has it,
// with its place in the frame for its number.
//
// In: what is kept; how many bytes of rows a lent buffer holds; the line's place and kind number; the line buffer, with its body in front. Out:
// where the rows end then; nothing where the row does not fit, since the line buffer is shorter than 356, or the rows' buffer than the rows with
// its own, and then nothing changes. Cost: linear in the row.

#![tactic(auto)]

ghost use Rattle.std.specs.Prelude.{◌≡◌, ◌∷◌, ◌++◌, ◌+◌, ◌≤◌, leb, length, take, drop};
ghost use Rattle.profile.specs.Profile.{width};
ghost use Rattle.line_records.specs.Lines.{line_size, in_two};
ghost use Rattle.frame_row.specs.FrameRow.{pixels_of, row_size, with_row, Keeps};

use line_code::Kind;
use line_records::LINE;
use profile::Profile;

// The order in which a head sends a line's pixels: from left to right, or the odd ones first.
#[derive(Clone, Copy)]
pub enum Order {
    AsSent,
    OddFirst,
}

// What is kept of a frame: the pixels of its visible lines, in order; or all of its lines, whole.
// No option of an order: whole lines are a way of keeping, and not the lack of one.
#[derive(Clone, Copy)]
pub enum Keeping {
    VisiblePixels(Order),
    WholeLines,
}

// Puts the row of a line after the bytes kept, where it fits, and says where they end then.
pub fn keep(
    keeping: Keeping,
    kept: usize,
    place: u16,
    kind: u8,
    line: &[u8],
    rows: &mut [u8],
) -> Option<usize>
    ensures { Keeps keeping kept place kind (take width line.now) rows.old result rows.new }
{
    if line.len() < Profile::WIDTH {
        return None;
    }
    let size = row_size(keeping, kind);
    if has_room(kept, size, rows.len()) {
        put_row(keeping, place, kind, &line[..Profile::WIDTH], rows, kept);
        return Some(kept + size);
    }
    None
}

// The length of the row of a line of a kind.
fn row_size(keeping: Keeping, kind: u8) -> usize
    ensures { result ≡ row_size keeping kind }
{
    match keeping {
        Keeping::VisiblePixels(_) => {
            if kind == Kind::VL.number() {
                return Profile::WIDTH;
            }
            0
        }
        Keeping::WholeLines => LINE,
    }
}

// Whether there is room for so many bytes after those kept.
fn has_room(kept: usize, size: usize, room: usize) -> bool
    ensures { result ≡ leb (kept + size) room }
{
    kept <= room && size <= room - kept
}

// Puts the row of a line at a place.
fn put_row(keeping: Keeping, place: u16, kind: u8, body: &[u8], rows: &mut [u8], at: usize)
    requires { (length body.now ≡ width) × (at + row_size keeping kind ≤ length rows.old) }
    ensures { rows.new ≡ with_row keeping at place kind body.now rows.old }
{
    match keeping {
        Keeping::VisiblePixels(order) => {
            if kind == Kind::VL.number() {
                put_pixels(order, body, rows, at);
            }
        }
        Keeping::WholeLines => put_line(place, kind, body, rows, at),
    }
}

// Puts a body's pixels at a place.
fn put_pixels(order: Order, body: &[u8], rows: &mut [u8], at: usize)
    requires { (length body.now ≡ width) × (at + width ≤ length rows.old) }
    ensures { rows.new ≡ take at rows.old ++ (pixels_of order body.now ++ drop (at + width) rows.old) }
{
    match order {
        Order::AsSent => {
            rows[at..at + Profile::WIDTH].copy_from_slice(body);
        }
        Order::OddFirst => {
            // A visible line's whole body, with room for its pixels, is not refused.
            let _ = pixel_order::to_pixels(Kind::VL.number(), body, &mut rows[at..]);
        }
    }
}

// Puts a line whole at a place: its kind, its place in the frame in two bytes, and its body.
fn put_line(place: u16, kind: u8, body: &[u8], rows: &mut [u8], at: usize)
    requires { (length body.now ≡ width) × (at + line_size ≤ length rows.old) }
    ensures { rows.new ≡ take at rows.old ++ (((kind ∷ in_two place) ++ body.now) ++ drop (at + line_size) rows.old) }
{
    let head = [kind, (place / 256) as u8, (place % 256) as u8];
    let start = text::put(&head, rows, at);
    text::put(body, rows, start);
}
