// Heads that send odd pixels first (paper 02, A2; figure 7 of 004).
//
// In: a line's kind by number, its body or its pixels, and a second buffer. Out: in that buffer's front the pixels of the body, or the body
// of the pixels: body place j below 178 holds pixel 2j + 1, place 178 + j holds pixel 2j. Each way undoes the other. The answer is the length
// used, 356; room beyond it stays. Refused, in this order, and then nothing is written: 23 not a visible line, 15 length of what is given,
// 12 room. The bytes themselves are not judged. Cost: linear.

#![tactic(auto)]

ghost use Rattle.std.specs.Prelude.{◌≡◌, ◌++◌, ◌<◌, ◌≤◌, length, drop};
ghost use Rattle.profile.specs.Profile.{width};
ghost use Rattle.lent_buffer.specs.Filled.{Gives};
ghost use Rattle.pixel_order.specs.PixelOrder.{place_of, pixel_at, source_of, reordered, reorder_of};
ghost use Rattle.pixel_order.specs.declared.Way.TheVariants.{ToPixels, ToBody};

use lent_buffer::Filled;
use line_code::Kind;
use profile::Profile;
use refusal::Refusal;

// Which way a line goes: from its body to its pixels, or back.
#[derive(Clone, Copy)]
pub enum Way {
    ToPixels,
    ToBody,
}

// The pixels of a body, into the second buffer.
pub fn to_pixels(kind: u8, body: &[u8], pixels: &mut [u8]) -> Filled
    ensures { Gives (reorder_of ToPixels kind body.now (length pixels.old)) result pixels.old pixels.new }
{
    reorder(Way::ToPixels, kind, body, pixels)
}

// The body that sends these pixels, into the second buffer.
pub fn to_body(kind: u8, pixels: &[u8], body: &mut [u8]) -> Filled
    ensures { Gives (reorder_of ToBody kind pixels.now (length body.old)) result body.old body.new }
{
    reorder(Way::ToBody, kind, pixels, body)
}

// The odd pixels of a line, and the even ones: as many of each.
const HALF: usize = 178;

fn reorder(way: Way, kind: u8, from: &[u8], to: &mut [u8]) -> Filled
    ensures { Gives (reorder_of way kind from.now (length to.old)) result to.old to.new }
{
    if kind != Kind::VL.number() {
        return Err(Refusal::NOT_VISIBLE);
    }
    if from.len() != Profile::WIDTH {
        return Err(Refusal::WRONG_BODY_LENGTH);
    }
    if to.len() < Profile::WIDTH {
        return Err(Refusal::NO_ROOM);
    }
    put(way, from, to);
    Ok(Profile::WIDTH)
}

// Puts each byte of a line where this way has it.
fn put(way: Way, from: &[u8], to: &mut [u8])
    requires { (length from.now ≡ width) × (width ≤ length to.old) }
    ensures { to.new ≡ reordered way from.now ++ drop width to.old }
{
    for i in 0..Profile::WIDTH {
        to[i] = from[way.source(i)];
    }
}

impl Way {
    // The place that the byte at place i comes from.
    fn source(self, i: usize) -> usize
        requires { i < width }
        ensures { result ≡ source_of self i }
    {
        match self {
            Way::ToPixels => place_of(i),
            Way::ToBody => pixel_at(i),
        }
    }
}

// The body place of pixel i.
fn place_of(i: usize) -> usize
    ensures { result ≡ place_of i }
{
    if i % 2 == 1 {
        return (i - 1) / 2;
    }
    HALF + i / 2
}

// The pixel at body place j.
fn pixel_at(j: usize) -> usize
    requires { j < width }
    ensures { result ≡ pixel_at j }
{
    if j < HALF {
        return 2 * j + 1;
    }
    2 * (j - HALF)
}
