// All of a reader's state but the body, and what a nibble does to it (paper 01, 'One answer for each mark').
//
// A text's eight newest nibbles wait in a window; each nibble pushes the oldest out, which is then kept by its place in the text. The reader's own
// test (11) looks at this state alone. Cost: constant for a nibble. An input above 15 counts by its low four bits.

#![tactic(auto)]

ghost use Rattle.std.specs.Prelude.{◌≡◌, ◌≤◌, ◌<◌, ◌/◌, ◌%◌};
ghost use Rattle.stream.specs.declared.Before.{Before};
ghost use Rattle.stream.specs.declared.Mark.TheVariants.{NoMark, Open};
ghost use Rattle.reader_head.specs.Head.{top_place, shows_mark, slide, bump, leave_kept, leave_body, shifted, opened_after, aged, window_fits, handed_fits, passes, flushed};

use mark_text::Kept;
use period::Nibbles;
use profile::Profile;
use stream::{Before, Mark};

// All of a reader's state but the body.
#[derive(Clone, Copy)]
pub struct Head {
    pub profile: Profile,
    // The open mark.
    pub at: Mark,
    // The nibbles of its text so far, its code's two among them; held at 65,543, which is longer than any
    // line's text, and gives a period of 65,535.
    pub count: u32,
    // The text's eight newest nibbles, the newest lowest.
    pub window: u32,
    // What is kept of the text's older nibbles, which have left the window; their body bytes are in the reader's body.
    pub kept: Kept,
}

impl Head {
    // The reader's own test: constant time, and no look at the body.
    #[tactic(auto, unfolding(crate::specs::Head::passes))]
    pub fn passes(self) -> bool
        ensures { result ≡ passes self }
    {
        self.count <= COUNT_STOP
            && !is_mark(self.window)
            && handed_fits(self.at)
            && window_fits(self.at, self.count, self.window)
            && (!self.kept.stray || self.profile.gap_start() + WINDOW < self.count)
    }
}

// Where the count of a text's nibbles stops: the next mark's eight nibbles above Nibbles::MOST.
const COUNT_STOP: u32 = Nibbles::MOST as u32 + WINDOW;

// The nibbles of a full window: a mark's F F F F 0 0 and its code.
pub const WINDOW: u32 = 8;

// The weight of the oldest nibble in a full window.
const TOP_PLACE: u32 = 0x1000_0000;

// F F F F 0 0 as a number, newest nibble lowest.
const GROUP: u32 = 0xFFFF00;

// A window's newest two nibbles are the code of a mark.
pub fn is_mark(window: u32) -> bool
    ensures { result ≡ shows_mark window }
{
    window / 256 == GROUP
}

// A window with one nibble more, and its oldest gone.
pub fn slide(window: u32, nibble: u8) -> u32
    ensures { result ≡ slide window (nibble % 16) }
{
    window % TOP_PLACE * 16 + (nibble % 16) as u32
}

// A full window's oldest nibble.
fn top(window: u32) -> u8
    ensures { (result ≡ window / top_place) × (result < 16) }
{
    (window / TOP_PLACE) as u8
}

// It leaves the window.
pub fn leave_kept(h: Head) -> Kept
    ensures { result ≡ leave_kept h }
{
    let kept = h.kept;
    if h.count < WINDOW {
        return kept;
    }
    let p = h.profile;
    kept.commit(p, h.count - WINDOW, top(h.window))
}

pub fn leave_body(h: Head, body: &mut [u8])
    ensures { body.new ≡ leave_body h body.old }
{
    if h.count < WINDOW {
        return;
    }
    mark_text::store(body, h.count - WINDOW, top(h.window));
}

// The count of a text's nibbles with one more, held at its stop.
pub fn next_count(count: u32) -> u32
    ensures { result ≡ bump count }
{
    if count < COUNT_STOP {
        return count + 1;
    }
    count
}

// One nibble, where no mark is complete.
pub fn shift(h: Head, nibble: u8) -> Head
    ensures { result ≡ shifted h (nibble % 16) }
{
    Head {
        count: next_count(h.count),
        window: slide(h.window, nibble),
        kept: leave_kept(h),
        ..h
    }
}

// A mark with this code, just complete: what the mark before was to it, and its code, which is all of its text.
pub fn open_after(h: Head, before: Before, code: u8) -> Head
    ensures { result ≡ opened_after h before code }
{
    let profile = h.profile;
    let at = Mark::Open(before, code);
    let kept = Kept::nothing();
    Head {
        profile,
        at,
        count: 2,
        window: code as u32,
        kept,
    }
}

// The window's nibbles leave it, the oldest first.
pub fn flush(h: Head) -> Head
    ensures { result ≡ flushed 8 h }
{
    let mut g = h;
    for _i in 0..WINDOW {
        g = shift(g, 0);
    }
    g
}

// Only an end of line follows a line handed out.
fn handed_fits(at: Mark) -> bool
    ensures { result ≡ handed_fits at }
{
    match at {
        Mark::NoMark => true,
        Mark::Open(before, code) => match before {
            Before::NoLine | Before::RefusedLine(_) => true,
            Before::HandedOut(_) => line_code::read(code).is_end(),
        },
    }
}

// While the code is still in the window it stands where the count says, and nothing before it.
fn window_fits(at: Mark, count: u32, window: u32) -> bool
    ensures { result ≡ window_fits at count window }
{
    match at {
        Mark::NoMark => unmarked_fits(count, window),
        Mark::Open(_, code) => marked_fits(code as u32, count, window),
    }
}

fn unmarked_fits(count: u32, window: u32) -> bool
    ensures { result ≡ window_fits NoMark count window }
{
    WINDOW < count || aged(count, window) == 0
}

fn marked_fits(code: u32, count: u32, window: u32) -> bool
    ensures { (before : Before) → result ≡ window_fits (Open before code) count window }
{
    2 <= count
        && (WINDOW < count || aged(count - 2, window) == code)
        && (count != WINDOW + 1 || aged(WINDOW - 1, window) == code % 16)
}

// A window without its k newest nibbles.
fn aged(k: u32, window: u32) -> u32
    requires { k ≤ 8 }
    ensures { result ≡ aged k window }
{
    if k < WINDOW {
        return window >> (4 * k);
    }
    0
}
