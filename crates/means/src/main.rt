// A table of half-line means (paper 02, A10): reads the bytes of a VV5300 capture from a file or from standard input, and writes a row for each
// visible line, as list_means says it. A capture without one has the names of the columns alone, and a line on standard error says so.
// Arguments that are not understood print the usage on standard error, and nothing else. An open, a read or a write that fails is told once,
// on standard error, and ends the table.

#![tactic(auto)]

use command_words::Asked;
use list_means::MeanLister;
use piecewise::{Listed, Lister};
use profile::Profile;
use text::Page;

fn main(rt: HostRuntime) {
    let asked = command::sensor_and_file(rt);
    if is_for_means(asked) {
        table(rt, asked.first);
    } else {
        command::complain(rt, b"usage: means [vv5300] [FILE]\n");
    }
}

// Whether all words were understood, and no other sensor was named.
fn is_for_means(asked: Asked) -> bool {
    let other = asked.named && matches!(asked.profile, Profile::VV5404);
    asked.understood && !other
}

// Writes the table of the file at a place among the arguments, or of standard input for 0, and says so where no row has come.
fn table(rt: HostRuntime, file: usize) {
    let fresh = MeanTable {
        lister: MeanLister::new(),
        come: false,
    };
    if let Some(end) = piecewise::list_capture(rt, fresh, file) {
        if !end.come {
            command::complain(
                rt,
                b"no visible line of a VV5300 was read: list vv5300 shows what came\n",
            );
        }
    }
}

// The names of the columns, and a row for each visible line; and whether a row has come.
#[derive(Clone, Copy)]
struct MeanTable {
    lister: MeanLister,
    come: bool,
}

impl Lister for MeanTable {
    fn head(self, out: &mut [u8]) -> usize {
        let mut page = Page::new(out);
        mean_rows::put_header(&mut page);
        page.used
    }

    fn list(self, piece: &[u8], from: usize, out: &mut [u8]) -> Listed<MeanTable> {
        let done = self.lister.list(piece, from, out);
        Listed {
            lister: MeanTable {
                lister: done.lister,
                come: self.come || 0 < done.used,
            },
            taken: done.taken,
            used: done.used,
        }
    }

    fn finish(self, out: &mut [u8]) -> Listed<MeanTable> {
        let last = self.lister.finish(out);
        Listed {
            lister: MeanTable {
                lister: last.lister,
                come: self.come || 0 < last.used,
            },
            taken: last.taken,
            used: last.used,
        }
    }
}
