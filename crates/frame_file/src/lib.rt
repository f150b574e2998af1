// What the programs picture and compare share: the rows of the first complete frame of a capture file.
//
// Read: the arguments, a capture from a file or standard input. What cannot be read is told once, on standard error. Memory: the frame's rows,
// and no more of the capture.

#![tactic(auto)]

ghost use Rattle.std.specs.Prelude.{◌≤◌, length, IfSome};

use command::Input;
use frame_grabber::Grabber;
use frame_row::Keeping;
use host_calls::Source;

// Whether two arguments are one word; none is the word of place 0. Not one expression: the words are read between the tests.
pub fn is_same(rt: HostRuntime, one: usize, other: usize) -> bool {
    if one == 0 || other == 0 {
        return false;
    }
    let mut a = [0u8; host_calls::ROOM];
    let n = host_calls::arg(rt, one, &mut a);
    let mut b = [0u8; host_calls::ROOM];
    let m = host_calls::arg(rt, other, &mut b);
    n != 0 && command_word::is(&a[..n], &b[..m])
}

// Puts the rows of the first complete frame of the capture at a place among the arguments at the front of a buffer, and gives their length; none
// where there are none, which has been told.
pub fn first_frame(rt: HostRuntime, file: usize, keeping: Keeping, rows: &mut [u8]) -> Option<usize>
    ensures { IfSome result (λ n. n ≤ length rows.new) }
{
    let mut name = [0u8; host_calls::ROOM];
    let Input { mut source, length } = command::open_capture(rt, file, &mut name)?;
    seek(rt, keeping, &mut source, &name[..length], rows)
}

// Reads the capture up to its first complete frame; where nothing is said the whole piece was taken. Nothing says that an input ends, so the
// loop counts its turns, to a number that no run reaches.
fn seek(
    rt: HostRuntime,
    keeping: Keeping,
    source: &mut Source,
    name: &[u8],
    rows: &mut [u8],
) -> Option<usize>
    ensures { IfSome result (λ n. n ≤ length rows.new) }
{
    let mut grabber = Grabber::new(keeping);
    for _ in 0..u64::MAX {
        let mut buf = [0u8; host_calls::LARGE_ROOM];
        let n = host_calls::read_or_tell(rt, source, name, &mut buf)?;
        if n == 0 {
            tell_no_frame(rt, name);
            return None;
        }
        let grabbed = grabber.grab(&buf[..n], 0, rows);
        grabber = grabbed.grabber;
        let Ok(complete) = grabbed.progress else {
            command::complain(rt, b"the capture cannot be read on\n");
            return None;
        };
        if let Some(length) = complete {
            return Some(length);
        }
    }
    None
}

fn tell_no_frame(rt: HostRuntime, name: &[u8]) {
    command::complain(rt, b"no complete frame in ");
    command::complain(rt, name);
    command::complain(
        rt,
        b": take a longer capture (of a VV5404 or VV6404 head)\n",
    );
}
