// The cases of paper 01 that are run and compared, and more of the same kind. They are lines of standard input: the file stdin says how to
// read them. What each brings is in stdout, as worked out by hand.

#![tactic(auto)]

mod buffer;
mod bus;
mod frames;
mod plain;
mod written;

use bus::Bus;
use frames::Hearing;
use host_calls::Source;
use plain::{byte_at, long_at, number_at, short_at};
use script_words::{end_line, say, say_front};

// The longest body that is written: one byte more than the longest that may be.
const LONGEST: usize = 357;

// What the lines work on: a reader, a judge, and a body for the writer.
#[derive(Clone, Copy)]
struct Bench {
    bus: Bus,
    hearing: Hearing,
    length: usize,
    body: [u8; LONGEST],
}

fn main(rt: HostRuntime) {
    let mut input = [0u8; host_calls::LARGE_ROOM];
    let n = host_calls::read_full(&mut Source::Standard(rt.stdin()), &mut input);
    if n == 65536 {
        host_calls::complain(rt, b"the input is longer than 65,535 bytes\n");
        return;
    }
    run(rt, &input[..n]);
}

// Each line of a text.
fn run(rt: HostRuntime, text: &[u8]) {
    let bus = Bus::new(rt, 0);
    let hearing = Hearing::new();
    let mut bench = Bench {
        bus,
        hearing,
        length: 0,
        body: [0; LONGEST],
    };
    for line in text.split(|sign| *sign == b'\n') {
        bench = bench.line(rt, line);
    }
}

impl Bench {
    // A line, by its first letter; any other line is passed over.
    fn line(self, rt: HostRuntime, line: &[u8]) -> Bench {
        if line.len() == 0 {
            return self;
        }
        let command = line[0];
        match command {
            b'n' | b's' | b'f' | b'i' | b'l' | b'e' => self.with_bus(rt, command, line),
            b'b' => self.with_body(number_at(line, 1), byte_at(line, 2)),
            b'p' => self.with_byte(number_at(line, 1), byte_at(line, 2)),
            b'j' | b'd' | b'g' | b'o' => self.with_hearing(rt, command, line),
            _ => self.unchanged(rt, command, line),
        }
    }

    // Lines that work on the reader.
    fn with_bus(self, rt: HostRuntime, command: u8, line: &[u8]) -> Bench {
        let bus = read(rt, self.bus, command, line);
        Bench { bus, ..self }
    }

    // Lines that work on the judge.
    fn with_hearing(self, rt: HostRuntime, command: u8, line: &[u8]) -> Bench {
        let hearing = judge(rt, self.hearing, command, line);
        Bench { hearing, ..self }
    }

    // A body of so many bytes, all alike.
    fn with_body(self, length: u64, byte: u8) -> Bench {
        if length <= LONGEST as u64 {
            return Bench {
                length: length as usize,
                body: [byte; LONGEST],
                ..self
            };
        }
        self
    }

    // The body with another byte at a place.
    fn with_byte(self, place: u64, byte: u8) -> Bench {
        let mut body = self.body;
        if place < LONGEST as u64 {
            body[place as usize] = byte;
        }
        Bench { body, ..self }
    }

    // Lines that only write.
    fn unchanged(self, rt: HostRuntime, command: u8, line: &[u8]) -> Bench {
        let body = self.body;
        match command {
            b'#' => title(rt, line),
            b'w' => written::write(rt, &body, self.length, line),
            b'r' => written::read_back(rt, &body, self.length, line),
            b'h' => header(rt),
            _ => {}
        }
        self
    }
}

// new, state, feed, input, lend, end.
fn read(rt: HostRuntime, bus: Bus, command: u8, line: &[u8]) -> Bus {
    match command {
        b'n' => Bus::new(rt, byte_at(line, 1)),
        b's' => bus::in_state(long_at(line, 1), long_at(line, 2)),
        b'f' => bus.feed(rt, line),
        b'i' => bus.input(rt, byte_at(line, 1)),
        b'l' => bus.lend(rt, number_at(line, 1), byte_at(line, 2)),
        _ => bus.finish(rt),
    }
}

// judge, due, give, over.
fn judge(rt: HostRuntime, hearing: Hearing, command: u8, line: &[u8]) -> Hearing {
    match command {
        b'j' => Hearing::new(),
        b'd' => frames::in_state(short_at(line, 1), number_at(line, 2)),
        b'g' => hearing.lines(rt, byte_at(line, 1), short_at(line, 2), short_at(line, 3)),
        _ => hearing.end(rt),
    }
}

fn title(rt: HostRuntime, line: &[u8]) {
    say(rt, line);
    end_line(rt);
}

// The first row of a listing.
fn header(rt: HostRuntime) {
    let mut row = [0u8; list_rows::ROW];
    let used = list_rows::header(&mut row);
    say_front(rt, &row, used);
}
