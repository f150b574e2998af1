// A picture of a capture's first complete frame (paper 02, A1 and A2): reads the bytes of a profile 0 capture from a file or from standard
// input, and writes the picture as a PGM file, to standard output or to the file after -o. With the word odd-pixels-first each row is put in
// order, for heads that send odd pixels first. Where no frame is complete or the picture can't be written whole an older file stays as it was,
// and a line on standard error says so. No picture goes to a terminal. The frame's rows are kept, and no more of the capture.

#![tactic(auto)]

use command_words::{Asked, Usage};
use frame_row::{Keeping, Order};
use profile::Profile;
use std::io::{IsTerminal, Write};

fn main(rt: HostRuntime) {
    let asked = words(rt);
    if asked.understood {
        show(rt, asked);
    } else {
        command::complain(
            rt,
            b"usage: picture [vv5404|vv6404] [odd-pixels-first] [-o PICTURE] [CAPTURE]\n",
        );
    }
}

fn words(rt: HostRuntime) -> Asked {
    command::words(
        rt,
        Usage {
            mark: false,
            odd: true,
            output: true,
            second: false,
        },
    )
}

// Writes the picture of a VV5404 or VV6404 head.
fn show(rt: HostRuntime, asked: Asked) {
    let profile = asked.profile;
    match profile {
        Profile::VV5404 => show_asked(rt, asked),
        Profile::VV5300 => command::complain(
            rt,
            b"a VV5300 has no picture here: pictures are of VV5404 and VV6404 heads only\n",
        ),
    }
}

// Writes the picture, or says why there is none.
fn show_asked(rt: HostRuntime, asked: Asked) {
    if asked.output == 0 && rt.stdout().is_terminal() {
        command::complain(
            rt,
            b"a picture is no text for a terminal: give -o and a name, or send it to a file\n",
        );
        return;
    }
    if frame_file::is_same(rt, asked.output, asked.first) {
        command::complain(
            rt,
            b"the picture would replace its capture: give another name after -o\n",
        );
        return;
    }
    let order = order_of(asked.odd);
    grab(rt, order, asked.first, asked.output);
}

fn order_of(odd: bool) -> Order {
    if odd {
        return Order::OddFirst;
    }
    Order::AsSent
}

fn grab(rt: HostRuntime, order: Order, capture: usize, picture: usize) {
    let mut rows = [0u8; pgm::MOST_PIXELS];
    let keeping = Keeping::VisiblePixels(order);
    if let Some(n) = frame_file::first_frame(rt, capture, keeping, &mut rows) {
        write(rt, &rows[..n], picture);
    }
}

// Writes the file of these rows.
fn write(rt: HostRuntime, rows: &[u8], picture: usize) {
    let mut file = [0u8; pgm::LONGEST_FILE];
    let filled = pgm::write(rows, &mut file);
    match filled {
        Ok(length) => put(rt, &file, length, picture),
        Err(_) => command::complain(rt, b"the frame is no picture\n"),
    }
}

fn put(rt: HostRuntime, file: &[u8], length: usize, picture: usize) {
    if file.len() < length {
        return;
    }
    if picture == 0 {
        send(rt, &mut rt.stdout(), b"standard output", &file[..length]);
        return;
    }
    save(rt, &file[..length], picture);
}

// Writes the file under the name at a place among the arguments.
fn save(rt: HostRuntime, file: &[u8], picture: usize) {
    let mut name = [0u8; host_calls::ROOM];
    let n = host_calls::arg(rt, picture, &mut name);
    if n == 0 {
        command::tell_no_name(rt, picture);
        return;
    }
    let Some(mut saving) = whole_file::begin(rt, &name[..n]) else {
        return;
    };
    let whole = send(rt, &mut saving.file, &name[..n], file);
    whole_file::end(rt, saving, &name[..n], whole);
}

// Writes all of a file, or says why it cannot; and whether it did.
fn send<W: Write>(rt: HostRuntime, to: &mut W, name: &[u8], file: &[u8]) -> bool {
    match to.write_all(file) {
        Ok(()) => true,
        Err(error) => {
            host_calls::fail(rt, name, error);
            false
        }
    }
}
