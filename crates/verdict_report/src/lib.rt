// What is told of a whole capture, below its frames: their counts, what was out of order, the repairs, the periods, and the verdict.
//
// In: what was found in the capture, whether the signal was lost, and the verdict. Out: the report's bytes at the front of the buffer, and how
// many they are. A count that is 0 has no line. Nothing is refused: a buffer of fewer than ROOM bytes stays as it was, and the count is 0.
// Cost: linear in the report.

#![tactic(auto)]

ghost use Rattle.std.specs.Prelude.{length};
ghost use Rattle.text.specs.Pages.{Writes};
ghost use Rattle.text.specs.Put.{AtFront};
ghost use Rattle.verdict_report.specs.Report.{frame_counts, frames_lines, lost_line, other_sensor, hint_line, no_frame_line, advice_line, verdict_lines, report_of, report_if_room};

use findings::Findings;
use profile::Profile;
use signal_report::put_count;
use signal_tally::{First, Signal};
use text::Page;
use verdict::Verdict;

// The bytes that no report exceeds.
pub const ROOM: usize = 2048;

// Puts the report at the front of a buffer.
pub fn put_report(findings: Findings, lost: bool, verdict: Verdict, out: &mut [u8]) -> usize
    ensures { AtFront (report_if_room (length out.old) (report_of findings lost verdict)) result out.old out.new }
{
    if out.len() < ROOM {
        return 0;
    }
    let mut page = Page::new(out);
    put_lines(findings, lost, verdict, &mut page);
    page.used
}

// The lines of the report.
fn put_lines(findings: Findings, lost: bool, verdict: Verdict, page: &mut Page<'_>)
    ensures { Writes (report_of findings lost verdict) page.old page.new }
{
    put_frames(findings, page);
    let signal = findings.signal;
    signal_report::put_signal(signal, page);
    put_lost(lost, page);
    let tally = findings.tally;
    let profile = tally.profile;
    let ordered = verdict::in_order(findings, lost);
    put_hint(profile, ordered, signal, page);
    put_verdict(verdict, ordered, page);
}

// The frames, and the lines outside them.
fn put_frames(findings: Findings, page: &mut Page<'_>)
    ensures { Writes (frames_lines findings) page.old page.new }
{
    put_frame_counts(findings, page);
    let outside = findings.outside;
    put_count(
        b"lines before the first frame: ",
        outside.early,
        b"\n",
        page,
    );
    put_count(b"lines outside frames: ", outside.later, b"\n", page);
}

fn put_frame_counts(findings: Findings, page: &mut Page<'_>)
    ensures { Writes (frame_counts findings) page.old page.new }
{
    let tally = findings.tally;
    page.put(b"frames: ");
    page.put_decimal(tally.complete);
    page.put(b" complete, ");
    page.put_decimal(tally.broken);
    page.put(b" broken, ");
    page.put_decimal(findings.cut);
    page.put(b" cut off\n");
}

fn put_lost(lost: bool, page: &mut Page<'_>)
    ensures { Writes (lost_line lost) page.old page.new }
{
    if lost {
        page.put(b"signal lost: no mark in the last part of the capture\n");
    }
}

// Where marks were read and no line, and something is out of order: the capture may be the other sensor's.
fn put_hint(profile: Profile, ordered: bool, signal: Signal, page: &mut Page<'_>)
    ensures { Writes (hint_line profile ordered signal.lines signal.first) page.old page.new }
{
    if ordered {
        return;
    }
    if 0 < signal.lines {
        return;
    }
    let first = signal.first;
    match first {
        First::Unseen => {}
        First::InsideLine => put_other_sensor(profile, page),
        First::Other => put_other_sensor(profile, page),
    }
}

fn put_other_sensor(profile: Profile, page: &mut Page<'_>)
    ensures { Writes (other_sensor profile) page.old page.new }
{
    match profile {
        Profile::VV5404 => page.put(
            b"no line of a VV5404; for a VV5300 head put vv5300 after frames\n",
        ),
        Profile::VV5300 => page.put(
            b"no line of a VV5300; for a VV5404 head put vv5404 after frames\n",
        ),
    }
}

// What to do, and the verdict in the last line.
fn put_verdict(verdict: Verdict, ordered: bool, page: &mut Page<'_>)
    ensures { Writes (verdict_lines verdict ordered) page.old page.new }
{
    put_advice(verdict, ordered, page);
    match verdict {
        Verdict::Good => page.put(b"GOOD\n"),
        Verdict::CheckTheClip => page.put(b"CHECK THE CLIP\n"),
        Verdict::NotGood => page.put(b"NOT GOOD\n"),
        Verdict::NoSignal => page.put(b"NO SIGNAL\n"),
    }
}

fn put_advice(verdict: Verdict, ordered: bool, page: &mut Page<'_>)
    ensures { Writes (advice_line verdict ordered) page.old page.new }
{
    match verdict {
        Verdict::Good => {}
        Verdict::CheckTheClip => page.put(
            b"something is out of order: take another capture before anyone takes the head\n",
        ),
        Verdict::NotGood => put_no_frame(ordered, page),
        Verdict::NoSignal => page.put(
            b"no mark at all: is the head powered, and the clip on its bus?\n",
        ),
    }
}

// Where no frame is complete: a capture in which nothing is out of order is too short.
fn put_no_frame(ordered: bool, page: &mut Page<'_>)
    ensures { Writes (no_frame_line ordered) page.old page.new }
{
    if ordered {
        page.put(b"nothing is out of order, but no whole frame came: take a longer capture\n");
    } else {
        page.put(b"no frame is complete: seat the clip again and take another capture\n");
    }
}
