// Tells why marks of a capture are refused (paper 02, A9): the mark with the number given, as `list` counts them, or every refused mark. One
// line for each: mark_finder finds the mark, why_line says the line. The capture is read in pieces, from a file or from standard input, and
// of the open mark no more bytes are kept than are looked at. An open, a read or a write that fails is told once, on standard error, and ends
// the search.

#![tactic(auto)]

use command::Input;
use command_words::{Asked, Usage};
use host_calls::Source;
use mark_finder::{Finder, Located};
use profile::Profile;

fn main(rt: HostRuntime) {
    let asked = words(rt);
    if asked.understood {
        seek_asked(rt, asked);
    } else {
        command::complain(rt, b"usage: why [MARK] [vv5404|vv6404|vv5300] [FILE]\n");
    }
}

// Reads the arguments: a word of digits is the mark's number.
fn words(rt: HostRuntime) -> Asked {
    command::words(
        rt,
        Usage {
            mark: true,
            odd: false,
            output: false,
            second: false,
        },
    )
}

fn seek_asked(rt: HostRuntime, asked: Asked) {
    let mut name = [0u8; host_calls::ROOM];
    let opened = command::open_capture(rt, asked.first, &mut name);
    if let Some(Input { mut source, length }) = opened {
        seek_all(rt, asked.profile, asked.mark, &mut source, &name[..length]);
    }
}

// A search: the finder, and whether a line was told.
#[derive(Clone, Copy)]
struct Search {
    finder: Finder,
    told: bool,
}

fn seek_all(rt: HostRuntime, profile: Profile, wanted: u64, source: &mut Source, name: &[u8]) {
    let mut buf = [0u8; host_calls::LARGE_ROOM];
    let mut held = [0u8; why_line::KEPT];
    let mut out = [0u8; host_calls::LARGE_ROOM];
    seek_in(
        rt, profile, wanted, source, name, &mut buf, &mut held, &mut out,
    );
}

// Searches the whole of an input, behind the finder's first piece. Nothing says that an input ends, so the loop counts its turns, to a number
// that no run reaches.
fn seek_in(
    rt: HostRuntime,
    profile: Profile,
    wanted: u64,
    source: &mut Source,
    name: &[u8],
    buf: &mut [u8],
    held: &mut [u8],
    out: &mut [u8],
) {
    let finder = Finder::new(profile);
    let mut search = Search {
        finder,
        told: false,
    };
    let mut n = text::put(&mark_finder::FRONT, buf, 0);
    let mut from: usize = 0;
    for _ in 0..u64::MAX {
        let Some(next) = seek_piece(rt, search, wanted, buf, n, from, held, out) else {
            return;
        };
        search = next;
        mark_finder::carry(buf, n);
        let Some(got) = read_behind(rt, source, name, buf) else {
            return;
        };
        if got == 0 {
            finish(rt, search, wanted, held, out);
            return;
        }
        n = with_overlap(got, buf);
        from = 2 * mark_finder::OVERLAP;
    }
}

// Reads a piece, behind the bytes that it has in common with the one before, or says why it cannot.
fn read_behind(rt: HostRuntime, source: &mut Source, name: &[u8], buf: &mut [u8]) -> Option<usize> {
    if buf.len() < mark_finder::OVERLAP {
        return Some(0);
    }
    host_calls::read_or_tell(rt, source, name, &mut buf[mark_finder::OVERLAP..])
}

// How many bytes a piece has, with those, when a read has answered this.
fn with_overlap(got: usize, buf: &[u8]) -> usize {
    let n = got.min(buf.len());
    if buf.len() - n < mark_finder::OVERLAP {
        return buf.len();
    }
    n + mark_finder::OVERLAP
}

// Searches the first n bytes of a buffer, mark after mark, from a nibble's place on. The lines on them are collected, and written when the buffer for
// them may have no room for one more, and at the end. None where the search has ended.
fn seek_piece(
    rt: HostRuntime,
    search: Search,
    wanted: u64,
    buf: &[u8],
    n: usize,
    from: usize,
    held: &mut [u8],
    out: &mut [u8],
) -> Option<Search> {
    let mut finder = search.finder;
    let mut told = search.told;
    if buf.len() < n {
        return None;
    }
    let piece = &buf[..n];
    let mut at = from;
    let mut used: usize = 0;
    // Not a for: each turn goes on by what the call took.
    while at / 2 < piece.len() {
        let found = finder.find(piece, at, held);
        let next = later(at, found.taken);
        if next <= at {
            write_front(rt, out, used);
            return None;
        }
        at = next;
        finder = found.finder;
        if found.answered {
            let mark = found.mark;
            if mark_finder::is_wanted(mark, wanted) {
                used = tell(rt, mark, held, found.length, out, used)?;
                told = true;
                if 0 < wanted {
                    write_front(rt, out, used);
                    return None;
                }
            }
        }
    }
    if write_front(rt, out, used) {
        let finder = finder.end_piece(piece, held);
        return Some(Search { finder, told });
    }
    None
}

// A place and some nibbles more: the same place where there are more than any piece has.
fn later(at: usize, taken: usize) -> usize {
    if 1_000_000 < at || 1_000_000 < taken {
        return at;
    }
    at + taken
}

// Tells the last mark, where it is asked for. Where nothing was told, says so.
fn finish(rt: HostRuntime, search: Search, wanted: u64, held: &[u8], out: &mut [u8]) {
    let finder = search.finder;
    let mark = finder.finish();
    if mark_finder::is_wanted(mark, wanted) {
        if let Some(used) = tell(rt, mark, held, finder.length, out, 0) {
            write_front(rt, out, used);
        }
        return;
    }
    if search.told {
        return;
    }
    if mark.number == 0 {
        command::complain(rt, b"the capture has no mark\n");
        return;
    }
    if wanted == 0 {
        command::complain(rt, b"no mark of the capture is refused\n");
    } else {
        command::complain(rt, b"the capture has no mark of that number\n");
    }
}

// Puts the line on a mark, whose bytes are the first n of those held, behind the lines collected, and gives how many bytes are collected then.
// Where there may be no room for it, those are written first. None where that fails.
fn tell(
    rt: HostRuntime,
    mark: Located,
    held: &[u8],
    n: usize,
    out: &mut [u8],
    used: usize,
) -> Option<usize> {
    if held.len() < n {
        return None;
    }
    if has_room(out.len(), used) {
        return Some(put_line(mark, &held[..n], out, used));
    }
    if write_front(rt, out, used) {
        return Some(put_line(mark, &held[..n], out, 0));
    }
    None
}

// Whether a buffer of this length has room for a line behind its first n bytes.
fn has_room(length: usize, n: usize) -> bool {
    n <= length && why_line::ROOM <= length - n
}

fn put_line(mark: Located, bytes: &[u8], out: &mut [u8], at: usize) -> usize {
    if out.len() < at {
        return at;
    }
    let n = why_line::tell(mark, bytes, &mut out[at..]);
    if out.len() - at < n {
        return at;
    }
    at + n
}

// Writes the first n bytes of a buffer, or says why it cannot.
fn write_front(rt: HostRuntime, buf: &[u8], n: usize) -> bool {
    n <= buf.len() && host_calls::print_or_tell(rt, &buf[..n])
}
