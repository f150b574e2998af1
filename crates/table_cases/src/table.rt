// A call of a table of readers, by one of the technicians.
ghost use Rattle.std.specs.Prelude.{◌≤◌, length};

use profile::Profile;
use reader_table::{ReaderTable, TableFed, TableOpened};
use script_words::{end_line, nibble_of, number, say, say_number, say_refused};
use stream::Answer;

// The most nibbles of a run here: a profile 0 line with its marks and gap fits.
const MOST: usize = 800;

// A call: the technician, a letter, a profile or a place, and what is fed.
pub fn call(rt: HostRuntime, table: ReaderTable, line: &[u8]) -> ReaderTable {
    if line.len() < 3 {
        return table;
    }
    say(rt, line);
    say(rt, b": ");
    let technician = digit(line[0]);
    let n = digit(line[2]);
    let after = asked(rt, table, technician, line[1], n, &line[3..]);
    end_line(rt);
    after
}

// The number of a hexadecimal digit; for any other sign 16, which is no nibble, no technician and no place.
fn digit(sign: u8) -> u8 {
    nibble_of(sign).unwrap_or(16)
}

fn asked(
    rt: HostRuntime,
    table: ReaderTable,
    technician: u8,
    letter: u8,
    n: u8,
    text: &[u8],
) -> ReaderTable {
    let place = n as usize;
    match letter {
        b'o' => opened(rt, table.open_reader(technician, n)),
        b'f' => feed(rt, table, technician, place, text),
        b'r' => run(rt, table, technician, place, text),
        b'e' => told(rt, table.finish(technician, place)),
        _ => told(rt, table.close(technician, place)),
    }
}

fn opened(rt: HostRuntime, o: TableOpened) -> ReaderTable {
    let answer = o.answer;
    match answer {
        Ok(place) => {
            say(rt, b"place ");
            say_number(rt, place as u64);
        }
        Err(refusal) => say_refused(rt, refusal),
    }
    o.table
}

// One nibble.
fn feed(
    rt: HostRuntime,
    table: ReaderTable,
    technician: u8,
    place: usize,
    text: &[u8],
) -> ReaderTable {
    if text.len() == 0 {
        return table;
    }
    let mut line = [0u8; Profile::LONGEST];
    let fed = table.feed(technician, place, digit(text[0]), &mut line);
    told(rt, fed)
}

// Nibbles in one run, as 0707 or 07*356.
fn run(
    rt: HostRuntime,
    table: ReaderTable,
    technician: u8,
    place: usize,
    text: &[u8],
) -> ReaderTable {
    let mut line = [0u8; Profile::LONGEST];
    let mut nibbles = [0u8; MOST];
    run_lent(rt, table, technician, place, text, &mut nibbles, &mut line)
}

fn run_lent(
    rt: HostRuntime,
    table: ReaderTable,
    technician: u8,
    place: usize,
    text: &[u8],
    nibbles: &mut [u8],
    line: &mut [u8],
) -> ReaderTable {
    let used = fill(nibbles, text);
    let ran = table.run(technician, place, &nibbles[0..used], line);
    say(rt, b"takes ");
    say_number(rt, ran.taken as u64);
    say(rt, b", ");
    let table = ran.table;
    let answer = ran.answer;
    told(rt, TableFed { table, answer })
}

// Puts the nibbles of a text so many times, and once at least.
fn fill(nibbles: &mut [u8], text: &[u8]) -> usize
    ensures { result ≤ length nibbles.new }
{
    match text.iter().position(|sign| *sign == b'*') {
        None => fill_times(nibbles, text, 1),
        Some(star) => fill_times(nibbles, &text[..star], number(&text[star + 1..])),
    }
}

fn fill_times(nibbles: &mut [u8], unit: &[u8], times: u64) -> usize
    ensures { result ≤ length nibbles.new }
{
    let mut used = put(nibbles, 0, unit);
    for _ in 1..times {
        used = put(nibbles, used, unit);
    }
    used
}

// Puts the nibbles of a text from a place on, as far as there is room.
fn put(nibbles: &mut [u8], from: usize, unit: &[u8]) -> usize
    requires { from ≤ length nibbles.old }
    ensures { result ≤ length nibbles.new }
{
    let mut used = from;
    for sign in unit {
        if nibbles.len() <= used {
            return used;
        }
        nibbles[used] = digit(*sign);
        used += 1;
    }
    used
}

// The table after a call, whose answer is written.
fn told(rt: HostRuntime, fed: TableFed) -> ReaderTable {
    let answer = fed.answer;
    match answer {
        Answer::Nothing => say(rt, b"nothing"),
        Answer::Line(facts) => {
            say(rt, b"line ");
            say_number(rt, facts.number as u64);
        }
        Answer::Gap(_) => say(rt, b"gap"),
        Answer::Refused(refusal) => say_refused(rt, refusal),
    }
    fed.table
}
