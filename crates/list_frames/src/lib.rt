// The frames of a capture listed, and judged: bytes in, text out, a line for each frame, and at the end the report of the whole capture.
//
// In: the bytes of a capture, piece after piece, each byte its two nibbles, the high one first, and the place of a nibble from which a piece is
// taken; finish at the end. Out: the lines on frames that are complete, broken or cut off, at the front of a lent buffer, and how many nibbles
// were taken and bytes used. A piece is taken as far as the buffer has room for one line more. Nothing is refused. Cost: that of the reader's
// runs, and linear in the text.

#![tactic(auto)]

ghost use Rattle.std.specs.Prelude.{◌≡◌, ◌+◌, ◌≤◌, length, drop};
ghost use Rattle.stream.specs.Written.{nibbles};
ghost use Rattle.verdict.specs.Verdict.{verdict_of};
ghost use Rattle.verdict_report.specs.Report.{report_room, report_of};
ghost use Rattle.list_news.specs.NewsLines.{news_line, news_room};
ghost use Rattle.text.specs.Put.{Put};
ghost use Rattle.list_frames.specs.FrameLister.{ListsFrames, fresh_lister, listed_of, finished_of};

use findings::Findings;
use frame_tally::News;
use profile::Profile;
use reader::Reader;
use verdict::Verdict;

// A reader, and what was found in its answers.
#[derive(Clone, Copy)]
pub struct FrameLister {
    pub reader: Reader,
    pub findings: Findings,
}

// A lister after a call, the nibbles it took, and the bytes of the buffer that it filled.
#[derive(Clone, Copy)]
pub struct FramesListed {
    pub lister: FrameLister,
    pub taken: usize,
    pub used: usize,
}

impl FrameLister {
    // A fresh reader, and nothing found.
    pub fn new(profile: Profile) -> FrameLister
        ensures { result ≡ fresh_lister profile }
    {
        let reader = Reader::fresh(profile);
        let findings = Findings::new(profile);
        FrameLister { reader, findings }
    }

    // Lists the nibbles of a piece's bytes from a place on, as far as the buffer has room. A reader that fails its own test takes nothing.
    pub fn list(self, input: &[u8], from: usize, out: &mut [u8]) -> FramesListed
        ensures { ListsFrames (listed_of self (length out.old) (drop from (nibbles input.now))) result out.old out.new }
    {
        let reader = self.reader;
        let mut head = reader.head;
        if capture_bytes::is_sound(head) {
            let mut body = reader.body;
            let mut line = [0u8; Profile::LONGEST];
            let mut findings = self.findings;
            let mut used: usize = 0;
            let mut at = from;
            // Not a for: each turn goes on by what the run took.
            while lister_laws::goes_on(input.len(), at, list_news::ROOM, out.len() - used) {
                let t = capture_bytes::run(head, &mut body, input, at, &mut line);
                head = t.head;
                let answer = t.answer;
                at += t.taken;
                let found = findings.take(answer);
                findings = found.findings;
                let news = found.news;
                used = put_news(news, out, used);
            }
            let reader = Reader { head, body };
            let lister = FrameLister { reader, findings };
            return FramesListed {
                lister,
                taken: at - from,
                used,
            };
        }
        FramesListed {
            lister: self,
            taken: 0,
            used: 0,
        }
    }

    // Lists the last frame, if there is news of it, and the report below, and leaves a fresh lister. A buffer of fewer than END bytes leaves
    // all as it was.
    pub fn finish(self, out: &mut [u8]) -> FramesListed
        ensures { ListsFrames (finished_of self (length out.old)) result out.old out.new }
    {
        if out.len() < END {
            return FramesListed {
                lister: self,
                taken: 0,
                used: 0,
            };
        }
        let reader = self.reader;
        let head = reader.head;
        let lost = verdict::is_lost(head);
        let fed = reader.finish();
        let answer = fed.answer;
        let findings = self.findings;
        let found = findings.close(answer);
        let news = found.news;
        let at = put_news(news, out, 0);
        let findings = found.findings;
        let used = put_findings(findings, lost, out, at);
        let reader = fed.reader;
        let profile = head.profile;
        let findings = Findings::new(profile);
        let lister = FrameLister { reader, findings };
        FramesListed {
            lister,
            taken: 0,
            used,
        }
    }
}

// Room for the last text: the last line, and the report.
pub const END: usize = list_news::ROOM + verdict_report::ROOM;

// Puts the line on a frame at a place, and gives the place after it.
fn put_news(news: News, out: &mut [u8], at: usize) -> usize
    requires { at + news_room ≤ length out.old }
    ensures { Put out.old at (news_line news) result out.new }
{
    at + list_news::news(news, &mut out[at..])
}

// Puts the report, with its verdict.
fn put_findings(findings: Findings, lost: bool, out: &mut [u8], at: usize) -> usize
    requires { at + report_room ≤ length out.old }
    ensures { Put out.old at (report_of findings lost (verdict_of findings lost)) result out.new }
{
    let verdict = Verdict::of(findings, lost);
    at + verdict_report::put_report(findings, lost, verdict, &mut out[at..])
}
