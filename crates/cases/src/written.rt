// Lines that the writer writes or refuses (paper 01, refusals 11 to 17), and those that are read back.
use crate::buffer::{UNTOUCHED, say_changed, say_differing};
use crate::bus::Bus;
use crate::plain::{byte_at, long_at, number_at, say_counted, short_at};
use lent_buffer::Filled;
use profile::Profile;
use refusal::Refusal;
use script_words::{end_line, say_number, say_refused};

// Writes a line, whose body is the front of a text, into a buffer of a size, and tells what came of it. The numbers of the case's line: profile,
// kind, number, two gap bytes, nulls, size.
pub fn write(rt: HostRuntime, text: &[u8], length: usize, case: &[u8]) {
    if length <= text.len() {
        let mut room = [UNTOUCHED; 1300];
        tell(rt, put_line(&text[0..length], case, &mut room));
        say_changed(rt, &room);
    }
}

// Writes a line, reads what was written, and compares the bodies.
pub fn read_back(rt: HostRuntime, text: &[u8], length: usize, case: &[u8]) {
    if length <= text.len() {
        let mut room = [UNTOUCHED; 1300];
        let mut line = [UNTOUCHED; Profile::LONGEST];
        let _ = put_line(&text[0..length], case, &mut room);
        Bus::new(rt, byte_at(case, 1))
            .written(rt, &room, &mut line)
            .finish(rt);
        say_differing(rt, &text[0..length], &line);
    }
}

// A size beyond the room here is told as refusal 0, which no call gives.
fn put_line(body: &[u8], case: &[u8], room: &mut [u8]) -> Filled {
    let size = number_at(case, 7);
    if (room.len() as u64) < size {
        return Err(Refusal(0));
    }
    writer::write(
        byte_at(case, 1),
        byte_at(case, 2),
        short_at(case, 3),
        body,
        byte_at(case, 4),
        byte_at(case, 5),
        long_at(case, 6),
        &mut room[0..size as usize],
    )
}

fn tell(rt: HostRuntime, written: Filled) {
    match written {
        Ok(count) => {
            say_number(rt, count as u64);
            say_counted(rt, b" nibbles, ", (count / 2) as u64, b" bytes");
        }
        Err(refusal) => say_refused(rt, refusal),
    }
    end_line(rt);
}
