// Lists what a capture holds (paper 01): reads the bytes of a sensor's bus, in large pieces, and writes a row for each mark.
//
// Read: the bytes of a capture of the sensor that the arguments name, from the file they name or from standard input. Written: the names of the
// columns, and the rows, as list_marks says them. Arguments that are not understood print the usage on standard error, and nothing else. An open,
// a read or a write that fails is told once, on standard error, and ends the list.

#![tactic(auto)]

use list_marks::MarkLister;
use piecewise::{Listed, Lister};

fn main(rt: HostRuntime) {
    let asked = command::sensor_and_file(rt);
    if asked.understood {
        let table = MarkTable {
            lister: MarkLister::new(asked.profile),
        };
        piecewise::list_capture(rt, table, asked.first);
    } else {
        command::complain(rt, b"usage: list [vv5404|vv6404|vv5300] [FILE]\n");
    }
}

// The names of the columns, and a row for each mark.
#[derive(Clone, Copy)]
struct MarkTable {
    lister: MarkLister,
}

impl Lister for MarkTable {
    fn head(self, out: &mut [u8]) -> usize {
        list_rows::header(out)
    }

    fn list(self, piece: &[u8], from: usize, out: &mut [u8]) -> Listed<MarkTable> {
        let done = self.lister.list(piece, from, out);
        Listed {
            lister: MarkTable {
                lister: done.lister,
            },
            taken: done.taken,
            used: done.used,
        }
    }

    fn finish(self, out: &mut [u8]) -> Listed<MarkTable> {
        let last = self.lister.finish(out);
        Listed {
            lister: MarkTable {
                lister: last.lister,
            },
            taken: last.taken,
            used: last.used,
        }
    }
}
