// The cases of a table of readers (paper 02, A12) that are run and compared. They are lines of standard input: the file stdin says how to read them.
// What each brings is in stdout, as worked out by hand.

#![tactic(auto)]

mod table;

use host_calls::Source;
use reader_table::ReaderTable;
use script_words::{end_line, say};

fn main(rt: HostRuntime) {
    let mut input = [0u8; host_calls::ROOM];
    let n = host_calls::read_full(&mut Source::Standard(rt.stdin()), &mut input);
    if n == 4096 {
        host_calls::complain(rt, b"the input is longer than 4,095 bytes\n");
        return;
    }
    run(rt, &input[..n]);
}

// Each line of a text.
fn run(rt: HostRuntime, text: &[u8]) {
    let mut table = ReaderTable::empty();
    for line in text.split(|sign| *sign == b'\n') {
        table = step(rt, table, line);
    }
}

// A line: a comment; a title, with an empty table after it; or a call.
fn step(rt: HostRuntime, table: ReaderTable, line: &[u8]) -> ReaderTable {
    if line.len() == 0 {
        return table;
    }
    match line[0] {
        b'-' => table,
        b'#' => titled(rt, line),
        _ => table::call(rt, table, line),
    }
}

fn titled(rt: HostRuntime, line: &[u8]) -> ReaderTable {
    say(rt, line);
    end_line(rt);
    ReaderTable::empty()
}
