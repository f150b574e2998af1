// The verdict on a capture, for the person at the kerb: GOOD, CHECK THE CLIP, NOT GOOD or NO SIGNAL.
//
// In: what was found in a capture, to its end, and whether the signal was lost before it. Out: the verdict. GOOD: a frame is complete, and nothing is
// out of order in the whole capture. CHECK THE CLIP: a frame is complete, but something is out of order. NOT GOOD: marks, and no complete frame. NO
// SIGNAL: no mark. Repaired codes and line periods don't change it. Nothing is refused. Cost: constant.

#![tactic(auto)]

ghost use Rattle.std.specs.Prelude.{◌≡◌};
ghost use Rattle.stream.specs.Written.{most_text};
ghost use Rattle.verdict.specs.Verdict.{is_lost, in_order, by_frames, verdict_of};

use findings::Findings;
use profile::Profile;
use reader_head::Head;
use signal_tally::First;
use stream::Mark;

#[derive(Clone, Copy)]
pub enum Verdict {
    Good,
    CheckTheClip,
    NotGood,
    NoSignal,
}

impl Verdict {
    // The verdict on a capture, of findings that are closed, and whether the signal was lost before the capture ended.
    pub fn of(findings: Findings, lost: bool) -> Verdict
        ensures { result ≡ verdict_of findings lost }
    {
        let signal = findings.signal;
        let first = signal.first;
        match first {
            First::Unseen => Verdict::NoSignal,
            First::InsideLine => by_frames(findings, lost),
            First::Other => by_frames(findings, lost),
        }
    }
}

fn by_frames(findings: Findings, lost: bool) -> Verdict
    ensures { result ≡ by_frames findings lost }
{
    let tally = findings.tally;
    if tally.complete == 0 {
        return Verdict::NotGood;
    }
    if in_order(findings, lost) {
        return Verdict::Good;
    }
    Verdict::CheckTheClip
}

// Whether nothing is out of order.
#[tactic(auto, unfolding(crate::specs::Verdict::in_order))]
pub fn in_order(findings: Findings, lost: bool) -> bool
    ensures { result ≡ in_order findings lost }
{
    !lost
        && findings.tally.broken == 0
        && findings.outside.later == 0
        && findings.outside.early <= frame_layout::last_place(findings.tally.profile) as u64
        && counts::are_zero(&findings.signal.refused)
}

// Whether a reader, at the end of a capture, has taken more nibbles since its last mark than a clean stream has between two marks: the signal
// was lost before the capture ended.
pub fn is_lost(head: Head) -> bool
    ensures { result ≡ is_lost head.profile head.at head.count }
{
    let at = head.at;
    match at {
        Mark::NoMark => false,
        Mark::Open(_, _) => {
            let profile = head.profile;
            most_text(profile) < head.count
        }
    }
}

// The most nibbles of a mark's text in a clean stream, before the next mark is complete: code, number and body, or code, two gap bytes and the most
// nulls; and seven nibbles of the next mark.
fn most_text(profile: Profile) -> u32
    ensures { result ≡ most_text profile }
{
    match profile {
        Profile::VV5404 => 725,
        Profile::VV5300 => 523,
    }
}
