// A reader's state as bytes: what a caller of the exported interface lends, moves and copies.
//
// In: bytes of any number; or a reader's head. Out: whether the bytes hold a reader that passes its own test, and the head that they hold; or the
// head's bytes, which come first in a state, before the body, and are put there. Their layout is specs/State.antt. Nothing is refused. Cost: constant.

#![tactic(auto)]

ghost use Rattle.std.specs.Prelude.{◌≡◌};
ghost use Rattle.profile.specs.Profile.{profile_number};
ghost use Rattle.exported_state.specs.State.{mark_number, code_of, mark_numbered, profile_of, number_of, head_bytes, head_stored, held_head, tagged, holds_reader};

use exported_call::bit;
use line_code::Kind;
use mark_text::Kept;
use profile::Profile;
use reader::Reader;
use reader_head::Head;
use stream::{Before, Mark};

// The bytes of a head, and of a whole state: the body's come after.
pub const HEAD: usize = 14;

pub const LENGTH: usize = HEAD + Profile::LONGEST;

// In place of a kind number: no mark is open.
const NO_MARK: u8 = 6;

// The greatest number of an open mark: 6 more than the greatest kind number.
const GREATEST_MARK: u8 = 11;

// Whether the bytes hold a reader that passes its own test.
#[tactic(auto, unfolding(crate::specs::State::holds_reader, crate::specs::State::held_head))]
pub fn holds_reader(state: &[u8]) -> bool
    ensures { result ≡ holds_reader state.now }
{
    LENGTH <= state.len() && is_tagged(state[0], state[1], state[13]) && head_in(state).passes()
}

// Whether these are numbers of a profile, of an open mark and of a bool.
#[tactic(auto, unfolding(crate::specs::State::tagged))]
pub fn is_tagged(profile: u8, mark: u8, stray: u8) -> bool
    ensures { result ≡ tagged profile mark stray }
{
    profile <= 1 && mark <= GREATEST_MARK && stray <= 1
}

// The head that bytes hold; a fresh reader's where they are too few for a state.
#[tactic(auto, unfolding(crate::specs::State::held_head, crate::specs::State::head_in))]
pub fn head_in(state: &[u8]) -> Head
    ensures { result ≡ held_head state.now }
{
    if state.len() < LENGTH {
        let fresh = Reader::fresh(Profile::VV5404);
        let head = fresh.head;
        return head;
    }
    let profile = profile_of(state[0]);
    let at = mark_numbered(state[1], state[2]);
    let count = number_of(state[3], state[4], state[5], state[6]);
    let window = number_of(state[7], state[8], state[9], state[10]);
    let kept = Kept {
        first: state[11],
        second: state[12],
        stray: state[13] == 1,
    };
    Head {
        profile,
        at,
        count,
        window,
        kept,
    }
}

fn profile_of(n: u8) -> Profile
    ensures { result ≡ profile_of n }
{
    if n == 0 {
        return Profile::VV5404;
    }
    Profile::VV5300
}

fn mark_numbered(n: u8, code: u8) -> Mark
    ensures { result ≡ mark_numbered n code }
{
    if n == NO_MARK {
        return Mark::NoMark;
    }
    if n < NO_MARK {
        let kind = Kind::numbered(n);
        let before = Before::of(kind, false);
        return Mark::Open(before, code);
    }
    let kind = Kind::numbered(n - NO_MARK);
    let before = Before::of(kind, true);
    Mark::Open(before, code)
}

// A number from its four bytes, the highest first.
fn number_of(a: u8, b: u8, c: u8, d: u8) -> u32
    ensures { result ≡ number_of a b c d }
{
    0x100_0000 * a as u32 + 0x1_0000 * b as u32 + 0x100 * c as u32 + d as u32
}

// A head's bytes.
#[tactic(auto, unfolding(crate::specs::State::head_bytes))]
pub fn head_bytes(h: Head) -> [u8; 14]
    ensures { result ≡ head_bytes h }
{
    let p = h.profile;
    let at = h.at;
    let kept = h.kept;
    let c = h.count;
    let w = h.window;
    [
        profile_number(p),
        mark_number(at),
        code_of(at),
        (c / 0x100_0000) as u8,
        (c / 0x1_0000 % 256) as u8,
        (c / 0x100 % 256) as u8,
        (c % 256) as u8,
        (w / 0x100_0000) as u8,
        (w / 0x1_0000 % 256) as u8,
        (w / 0x100 % 256) as u8,
        (w % 256) as u8,
        kept.first,
        kept.second,
        bit(kept.stray),
    ]
}

// Puts a head's bytes at the front of a state; where there are fewer, nothing.
#[tactic(auto, unfolding(crate::specs::State::head_stored))]
pub fn store_head(h: Head, state: &mut [u8])
    ensures { state.new ≡ head_stored h state.old }
{
    if state.len() < HEAD {
        return;
    }
    let head = head_bytes(h);
    state[..HEAD].copy_from_slice(&head);
}

fn profile_number(p: Profile) -> u8
    ensures { result ≡ profile_number p }
{
    match p {
        Profile::VV5404 => 0,
        Profile::VV5300 => 1,
    }
}

fn mark_number(at: Mark) -> u8
    ensures { result ≡ mark_number at }
{
    match at {
        Mark::NoMark => NO_MARK,
        Mark::Open(before, _) => match before {
            Before::NoLine => 0,
            Before::RefusedLine(kind) => kind.number(),
            Before::HandedOut(kind) => NO_MARK + kind.number(),
        },
    }
}

fn code_of(at: Mark) -> u8
    ensures { result ≡ code_of at }
{
    match at {
        Mark::NoMark => 0,
        Mark::Open(_, code) => code,
    }
}
