// Two captures compared (paper 02, A13): reads the bytes of two profile 0 captures from files, takes all lines of the first complete frame of
// each, and says on standard output how they differ: lines that one only holds, lines of two kinds, pixels, in which lines and by how much at
// most. With -o each difference goes to a file, as a row of text. Where a capture has no complete frame a line on standard error says so, with
// its name, and nothing is compared. The lines of two frames are kept, and no more of the captures.

#![tactic(auto)]

use command_words::{Asked, Usage};
use diff_summary::Summary;
use frame_row::Keeping;
use profile::Profile;
use refusal::Refusal;
use std::fs::File;
use std::io;
use std::io::Write;
use text::Page;

// What no summary exceeds.
const TEXT: usize = 512;

fn main(rt: HostRuntime) {
    let asked = words(rt);
    if is_for_two(asked) {
        compare(rt, asked);
    } else {
        command::complain(
            rt,
            b"usage: compare [vv5404|vv6404] [-o DIFFERENCES] FIRST-CAPTURE SECOND-CAPTURE\n",
        );
    }
}

// Reads the arguments: the order of the pixels does not matter here.
fn words(rt: HostRuntime) -> Asked {
    command::words(
        rt,
        Usage {
            mark: false,
            odd: false,
            output: true,
            second: true,
        },
    )
}

// Whether the words are understood, and name two captures.
fn is_for_two(asked: Asked) -> bool {
    asked.understood && asked.second != 0
}

// Compares captures of VV5404 or VV6404 heads.
fn compare(rt: HostRuntime, asked: Asked) {
    let profile = asked.profile;
    match profile {
        Profile::VV5404 => compare_asked(rt, asked),
        Profile::VV5300 => command::complain(
            rt,
            b"frames of a VV5300 are not compared here: only those of VV5404 and VV6404 heads\n",
        ),
    }
}

// Compares the captures, or says why they can't be.
fn compare_asked(rt: HostRuntime, asked: Asked) {
    if replaces(rt, asked) {
        command::complain(
            rt,
            b"the differences would replace a capture: give another name after -o\n",
        );
        return;
    }
    let keeping = Keeping::WholeLines;
    let mut first = [0u8; frame_rows::ALL_LINES];
    if let Some(n) = frame_file::first_frame(rt, asked.first, keeping, &mut first) {
        compare_with(rt, &first[..n], asked.second, asked.output);
    }
}

// Whether the name for the differences is a capture's.
fn replaces(rt: HostRuntime, asked: Asked) -> bool {
    frame_file::is_same(rt, asked.output, asked.first)
        || frame_file::is_same(rt, asked.output, asked.second)
}

fn compare_with(rt: HostRuntime, first: &[u8], capture: usize, output: usize) {
    let keeping = Keeping::WholeLines;
    let mut second = [0u8; frame_rows::ALL_LINES];
    if let Some(m) = frame_file::first_frame(rt, capture, keeping, &mut second) {
        between(rt, first, &second[..m], output);
    }
}

// Says whether two lists are equal or how they differ, and writes the differences where they are asked for. The comparison is first lent room
// for none of them: it then answers only whether there are any.
fn between(rt: HostRuntime, first: &[u8], second: &[u8], output: usize) {
    let mut none = [0u8; 1];
    let filled = diff_lines::compare(first, second, &mut none);
    match filled {
        Ok(_) => say(rt, b"the two frames are equal\n"),
        Err(why) => {
            if why != Refusal::NO_ROOM {
                command::complain(rt, b"the two frames cannot be compared\n");
                return;
            }
            say_summary(rt, diff_summary::summed(first, second));
        }
    }
    if output == 0 {
        return;
    }
    save(rt, first, second, output);
}

// Writes the summary.
fn say_summary(rt: HostRuntime, summary: Summary) {
    let mut text = [0u8; TEXT];
    let mut page = Page::new(&mut text);
    diff_summary_words::put_summary(summary, &mut page);
    let end = page.used;
    if text.len() < end {
        return;
    }
    say(rt, &text[..end]);
}

// Writes a row for each difference under the name at a place among the arguments.
fn save(rt: HostRuntime, first: &[u8], second: &[u8], output: usize) {
    let mut name = [0u8; host_calls::ROOM];
    let n = host_calls::arg(rt, output, &mut name);
    if n == 0 {
        command::tell_no_name(rt, output);
        return;
    }
    let Some(mut saving) = whole_file::begin(rt, &name[..n]) else {
        return;
    };
    let whole = match all_rows(&mut saving.file, first, second) {
        Ok(()) => true,
        Err(error) => {
            host_calls::fail(rt, &name[..n], error);
            false
        }
    };
    whole_file::end(rt, saving, &name[..n], whole);
}

// Writes the rows of all differences, number after number.
fn all_rows(file: &mut File, first: &[u8], second: &[u8]) -> io::Result<()> {
    let mut i: usize = 0;
    let mut j: usize = 0;
    // Not a for: each turn goes on by what the call took.
    loop {
        let mut rows = [0u8; diff_rows::ROOM];
        let piece = diff_rows::next_rows(&first[i..], &second[j..], &mut rows);
        if piece.first + piece.second == 0 {
            return Ok(());
        }
        file.write_all(&rows[..piece.end])?;
        i += piece.first;
        j += piece.second;
    }
}

// Writes a text to standard output, or says why it cannot.
fn say(rt: HostRuntime, text: &[u8]) {
    host_calls::print_or_tell(rt, text);
}
