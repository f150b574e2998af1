// Judges a capture: reads the bytes of a sensor's bus, in large pieces, and writes a line for each frame that is complete, broken or cut off; then
// the report of the whole, with the verdict in the last line.
//
// Read: the bytes of a capture of the sensor that the arguments name, from the file they name or from standard input. Written: their text, as
// list_frames says it. Arguments that are not understood print the usage on standard error, and nothing else. An open, a read or a write that
// fails is told once, on standard error, and ends the list: nothing is then said of the whole.

#![tactic(auto)]

use list_frames::FrameLister;
use piecewise::{Listed, Lister};

fn main(rt: HostRuntime) {
    let asked = command::sensor_and_file(rt);
    if asked.understood {
        let report = FrameReport {
            lister: FrameLister::new(asked.profile),
        };
        piecewise::list_capture(rt, report, asked.first);
    } else {
        command::complain(rt, b"usage: frames [vv5404|vv6404|vv5300] [FILE]\n");
    }
}

// A line for each frame, and the report at the end.
#[derive(Clone, Copy)]
struct FrameReport {
    lister: FrameLister,
}

impl Lister for FrameReport {
    // No text stands above the frames.
    fn head(self, _out: &mut [u8]) -> usize {
        0
    }

    fn list(self, piece: &[u8], from: usize, out: &mut [u8]) -> Listed<FrameReport> {
        let done = self.lister.list(piece, from, out);
        Listed {
            lister: FrameReport {
                lister: done.lister,
            },
            taken: done.taken,
            used: done.used,
        }
    }

    fn finish(self, out: &mut [u8]) -> Listed<FrameReport> {
        let last = self.lister.finish(out);
        Listed {
            lister: FrameReport {
                lister: last.lister,
            },
            taken: last.taken,
            used: last.used,
        }
    }
}
