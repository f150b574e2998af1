// A capture listed piece by piece: what the programs list, frames and means share.
//
// In: a lister of captures, and the place of a file among the arguments, or 0 for standard input. Out: on standard output the lister's head, its text
// on each piece and the text at the end; the lister after that, none where something has failed before that text. An open, a read or a write that fails is told once,
// on standard error, and ends the list. Memory: two buffers on the stack, one for a piece and one for text.

#![tactic(auto)]

ghost use Rattle.std.specs.Prelude.{◌+◌, ◌*◌, ◌≤◌, length};

use command::Input;
use host_calls::Source;

// A lister after a call, the nibbles that it took, and the bytes of the buffer that it filled.
#[derive(Clone, Copy)]
pub struct Listed<L> {
    pub lister: L,
    pub taken: usize,
    pub used: usize,
}

// What lists a capture: its text stands at the front of a lent buffer.
pub trait Lister: Copy + Drop {
    // Puts what stands above all rows, and gives its length.
    fn head(self, out: &mut [u8]) -> usize
        ensures { result ≤ length out.new };

    // Lists the nibbles of a piece's bytes from a place on, as far as the buffer has room.
    fn list(self, piece: &[u8], from: usize, out: &mut [u8]) -> Listed<Self>
        ensures taken { from ≤ 2 * length piece.now → from + result.taken ≤ 2 * length piece.now }
        ensures used { result.used ≤ length out.new };

    // Lists what is left at the capture's end.
    fn finish(self, out: &mut [u8]) -> Listed<Self>
        ensures { result.used ≤ length out.new };
}

// Lists the capture at a place among the arguments.
pub fn list_capture<L: Lister>(rt: HostRuntime, lister: L, file: usize) -> Option<L> {
    let mut name = [0u8; host_calls::ROOM];
    let Input { mut source, length } = command::open_capture(rt, file, &mut name)?;
    list_input(rt, lister, &mut source, &name[..length])
}

// Lists the whole of an input.
fn list_input<L: Lister>(
    rt: HostRuntime,
    lister: L,
    source: &mut Source,
    name: &[u8],
) -> Option<L> {
    let mut buf = [0u8; host_calls::LARGE_ROOM];
    let mut out = [0u8; host_calls::LARGE_ROOM];
    list_in(rt, lister, source, name, &mut buf, &mut out)
}

// The same, by way of a buffer for the pieces and one for the text, which are cleared once. The first piece is read before the head is written: an
// input that can't be read is told, and nothing is listed.
fn list_in<L: Lister>(
    rt: HostRuntime,
    lister: L,
    source: &mut Source,
    name: &[u8],
    buf: &mut [u8],
    out: &mut [u8],
) -> Option<L> {
    let first = host_calls::read_or_tell(rt, source, name, buf)?;
    let used = lister.head(out);
    if !host_calls::print_or_tell(rt, &out[..used]) {
        return None;
    }
    let end = list_from(rt, lister, first, source, name, buf, out)?;
    let last = end.finish(out);
    host_calls::print_or_tell(rt, &out[..last.used]);
    Some(last.lister)
}

// Lists an input, of whose first piece so many bytes were read. Nothing says that an input ends, so the loop counts its turns, to a number that no
// run reaches; an empty piece is the input's end.
fn list_from<L: Lister>(
    rt: HostRuntime,
    lister: L,
    first: usize,
    source: &mut Source,
    name: &[u8],
    buf: &mut [u8],
    out: &mut [u8],
) -> Option<L>
    requires { first ≤ length buf.old }
{
    let mut lister = lister;
    let mut n = first;
    for _ in 0..u64::MAX {
        lister = list_piece(rt, lister, &buf[..n], out)?;
        if n == 0 {
            break;
        }
        n = host_calls::read_or_tell(rt, source, name, buf)?;
    }
    Some(lister)
}

// Lists a piece, nibble after nibble, and writes its text as often as it fills the buffer.
fn list_piece<L: Lister>(rt: HostRuntime, lister: L, piece: &[u8], out: &mut [u8]) -> Option<L> {
    let mut lister = lister;
    let mut at: usize = 0;
    // Not a for: each turn goes on by what the call took.
    while at < 2 * piece.len() {
        let done = lister.list(piece, at, out);
        lister = done.lister;
        if !host_calls::print_or_tell(rt, &out[..done.used]) || done.taken == 0 {
            return None;
        }
        at += done.taken;
    }
    Some(lister)
}
