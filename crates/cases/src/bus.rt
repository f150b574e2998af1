// A reader on the bus, fed by hand: each answer is written as its row of a listing, numbered from 1 in each case.
use crate::buffer::{UNTOUCHED, say_changed};
use crate::plain::{say_counted, say_hex};
use line_code::Repair;
use mark_text::Kept;
use period::{Nibbles, Periods, Rate};
use profile::Profile;
use reader::Reader;
use reader_head::Head;
use script_words::{end_line, nibble_of, number, say, say_front, say_number};
use stream::{Answer, Mark};

// A reader, and how many answers it has given.
#[derive(Clone, Copy)]
pub struct Bus {
    pub reader: Reader,
    pub answers: u64,
}

impl Bus {
    // A new reader of the profile with this number.
    pub fn new(rt: HostRuntime, profile: u8) -> Bus {
        let made = Reader::new(profile);
        let reader = made.reader;
        let answer = made.answer;
        answered(rt, reader, answer, 0)
    }

    // The words of a line after its first: nibbles, or, as 07*356, nibbles so many times.
    pub fn feed(self, rt: HostRuntime, line: &[u8]) -> Bus {
        let mut bus = self;
        for word in line.split(|sign| *sign == b' ').skip(1) {
            bus = bus.word(rt, word);
        }
        bus
    }

    fn word(self, rt: HostRuntime, word: &[u8]) -> Bus {
        match word.iter().position(|sign| *sign == b'*') {
            None => self.hex(rt, word),
            Some(star) => self.repeat(rt, &word[..star], number(&word[star + 1..])),
        }
    }

    // The same nibbles, so many times.
    fn repeat(self, rt: HostRuntime, unit: &[u8], times: u64) -> Bus {
        let mut bus = self;
        for _ in 0..times {
            bus = bus.hex(rt, unit);
        }
        bus
    }

    // The nibbles that a text has as hexadecimal digits; its other signs are passed over.
    fn hex(self, rt: HostRuntime, text: &[u8]) -> Bus {
        let mut bus = self;
        for sign in text {
            if let Some(nibble) = nibble_of(*sign) {
                bus = bus.input(rt, nibble);
            }
        }
        bus
    }

    // One input, with a line buffer of 356 bytes.
    pub fn input(self, rt: HostRuntime, nibble: u8) -> Bus {
        let mut line = [0u8; Profile::LONGEST];
        self.lent(rt, nibble, &mut line)
    }

    // One input, with the line buffer that is lent.
    fn lent(self, rt: HostRuntime, nibble: u8, line: &mut [u8]) -> Bus {
        let reader = self.reader;
        let fed = reader.feed(nibble, line);
        let reader = fed.reader;
        let answer = fed.answer;
        answered(rt, reader, answer, self.answers)
    }

    // One input, with a line buffer of so many bytes, which is looked at afterwards.
    pub fn lend(self, rt: HostRuntime, size: u64, nibble: u8) -> Bus {
        let mut line = [UNTOUCHED; 360];
        let bus = self.front_lent(rt, nibble, &mut line, size);
        say_changed(rt, &line);
        bus
    }

    fn front_lent(self, rt: HostRuntime, nibble: u8, line: &mut [u8], size: u64) -> Bus {
        if (line.len() as u64) < size {
            return self;
        }
        self.lent(rt, nibble, &mut line[0..size as usize])
    }

    // The nibbles that were written to a buffer, in runs, with the line buffer that is lent.
    pub fn written(self, rt: HostRuntime, buffer: &[u8], line: &mut [u8]) -> Bus {
        let end = match buffer.iter().position(|byte| *byte == UNTOUCHED) {
            Some(end) => end,
            None => buffer.len(),
        };
        let mut bus = self;
        let mut from: usize = 0;
        for _ in 0..end {
            let reader = bus.reader;
            let ran = run::run(reader, &buffer[from..end], line);
            let reader = ran.reader;
            let answer = ran.answer;
            let taken = ran.taken;
            bus = answered(rt, reader, answer, bus.answers);
            if end - from <= taken {
                return bus;
            }
            from += taken;
        }
        bus
    }

    // The end of the input: a fresh reader is left.
    pub fn finish(self, rt: HostRuntime) -> Bus {
        let reader = self.reader;
        let fed = reader.finish();
        let reader = fed.reader;
        let answer = fed.answer;
        if let Answer::Nothing = answer {
            say(rt, b"finish: no answer\n");
        }
        answered(rt, reader, answer, self.answers)
    }
}

// A reader of profile 0 with this count and window.
pub fn in_state(count: u32, window: u32) -> Bus {
    let at = Mark::NoMark;
    let kept = Kept::nothing();
    let head = Head {
        profile: Profile::VV5404,
        at,
        count,
        window,
        kept,
    };
    let reader = Reader {
        head,
        body: [0; Profile::LONGEST],
    };
    Bus { reader, answers: 0 }
}

// The bus after a call, whose answer is written.
fn answered(rt: HostRuntime, reader: Reader, answer: Answer, answers: u64) -> Bus {
    if let Answer::Nothing = answer {
        return Bus { reader, answers };
    }
    let answers = std::num::wrapping_add_u64(answers, 1);
    show_row(rt, answers, answer);
    let head = reader.head;
    let profile = head.profile;
    show_facts(rt, profile, answer);
    Bus { reader, answers }
}

fn show_row(rt: HostRuntime, number: u64, answer: Answer) {
    let mut row = [0u8; list_rows::ROW];
    let used = list_rows::row(number, answer, &mut row);
    say_front(rt, &row, used);
}

// What a row leaves out.
fn show_facts(rt: HostRuntime, profile: Profile, answer: Answer) {
    match answer {
        Answer::Nothing => {}
        Answer::Line(facts) => {
            let start = facts.start;
            let end = facts.end;
            show_repair(rt, b"  start bit ", start);
            show_repair(rt, b"  end bit ", end);
        }
        Answer::Gap(gap) => {
            show_gap_bytes(rt, profile, gap.first, gap.second);
            let period = gap.period;
            show_period(rt, period);
        }
        Answer::Refused(_) => {}
    }
}

// The bit of a code that was repaired.
fn show_repair(rt: HostRuntime, of: &[u8], repair: Repair) {
    match repair {
        Repair::Clean => {}
        Repair::Bit(bit) => {
            say(rt, of);
            say_hex(rt, bit);
            end_line(rt);
        }
    }
}

// Profile 1 hands out the bytes of a gap.
fn show_gap_bytes(rt: HostRuntime, profile: Profile, first: u8, second: u8) {
    match profile {
        Profile::VV5404 => {}
        Profile::VV5300 => {
            say(rt, b"  bytes ");
            say_hex(rt, first);
            say(rt, b" ");
            say_hex(rt, second);
            end_line(rt);
        }
    }
}

// The period of a line, where its gap carries one: in nibbles, in whole pixel periods, and its name.
fn show_period(rt: HostRuntime, period: Nibbles) {
    if period.0 == 0 {
        return;
    }
    say_counted(rt, b"  period ", period.0 as u64, b" nibbles, ");
    let whole = period.whole();
    show_whole(rt, whole);
    let rate = period.rate();
    show_rate(rt, rate);
    end_line(rt);
}

fn show_whole(rt: HostRuntime, whole: Option<Periods>) {
    match whole {
        Some(periods) => {
            say_number(rt, periods.0 as u64);
            say(rt, b" pixel periods");
        }
        None => say(rt, b"no whole pixel period"),
    }
}

fn show_rate(rt: HostRuntime, rate: Rate) {
    match rate {
        Rate::Thirty => say(rt, b", 30 frames a second"),
        Rate::TwentyFive => say(rt, b", 25 frames a second"),
        Rate::Unnamed => {}
    }
}
