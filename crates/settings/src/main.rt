// Exposure settings that one can go back to (paper 02, A11), in a file of text, a line for each of the last eight (crate saved_text).
//
//     settings FILE save FINE COARSE GAIN DIVISOR RATE | find VERSION | back VERSION | messages VERSION | list
//
// What a request does to the file's text, and what is said of it, is crate settings_request's. Standard output has what was saved, found or listed,
// or the messages to send; a refusal goes to standard error, and the file is left alone. A file that does not exist holds no settings yet: `save` makes
// it. A new list is written to FILE.new, which then takes the file's name, so that the file is replaced whole or not at all.

#![tactic(auto)]

use host_calls::Source;
use refusal::Refusal;
use settings_request::Request;
use settings_typed::{NumberWords, TypedRequest};
use std::fs::File;
use std::io;
use std::io::{ErrorKind, Write};
use text::Page;

// Room for what is said, and for a list's text.
const ROOM: usize = 2048;

// The places of the words among the arguments.
const FILE: usize = 1;

const VERB: usize = 2;

fn main(rt: HostRuntime) {
    let asked = words(rt);
    if asked.understood {
        let request = asked.request;
        serve_file(rt, request);
    } else {
        command::complain(
            rt,
            b"usage: settings FILE save FINE COARSE GAIN DIVISOR RATE\n",
        );
        command::complain(rt, b"       settings FILE find|back|messages VERSION\n");
        command::complain(rt, b"       settings FILE list\n");
    }
}

// The request that the arguments make.
fn words(rt: HostRuntime) -> TypedRequest {
    let mut verb = [0u8; host_calls::ROOM];
    let n = host_calls::arg(rt, VERB, &mut verb);
    let count = host_calls::arg_count(rt);
    let numbers = NumberWords {
        count: after_verb(count),
        first: number(rt, 3),
        second: number(rt, 4),
        third: number(rt, 5),
        fourth: number(rt, 6),
        fifth: number(rt, 7),
    };
    settings_typed::read(&verb[..n], numbers)
}

// How many arguments stand after the verb.
fn after_verb(count: usize) -> usize {
    if count <= VERB {
        return 0;
    }
    count - VERB - 1
}

// The number at a place among the arguments.
fn number(rt: HostRuntime, place: usize) -> u32 {
    let mut word = [0u8; host_calls::ROOM];
    let n = host_calls::arg(rt, place, &mut word);
    named_value::number(&word[..n], 0)
}

// Serves a request with the file that the arguments name.
fn serve_file(rt: HostRuntime, request: Request) {
    let mut name = [0u8; host_calls::ROOM];
    let n = host_calls::arg(rt, FILE, &mut name);
    if n == 0 {
        command::tell_no_name(rt, FILE);
        return;
    }
    if changes_file(request) {
        change_file(rt, request, &name[..n]);
        return;
    }
    serve_with(rt, request, &name[..n], b"", None);
}

// Whether a request may change the file.
fn changes_file(request: Request) -> bool {
    matches!(request, Request::Save(_) | Request::Back(_))
}

// Serves such a request: the new list is written beside the file, to one that is made before the old list is read. So two runs at once don't
// lose what one of them saves.
fn change_file(rt: HostRuntime, request: Request, name: &[u8]) {
    let mut beside = [0u8; host_calls::ROOM];
    let end = whole_file::put_beside(name, b".new", &mut beside);
    if beside.len() <= end {
        command::complain(rt, b"the name of the file is too long\n");
        return;
    }
    change_beside(rt, request, name, &beside[..end]);
}

fn change_beside(rt: HostRuntime, request: Request, name: &[u8], beside: &[u8]) {
    let made = whole_file::make(rt, beside);
    if made.is_none() {
        return;
    }
    if serve_with(rt, request, name, beside, made) {
        return;
    }
    let _ = host_calls::remove(rt, beside);
}

// Serves a request with what the file holds, and answers whether the file was replaced.
fn serve_with(
    rt: HostRuntime,
    request: Request,
    name: &[u8],
    beside: &[u8],
    made: Option<File>,
) -> bool {
    let mut text = [0u8; host_calls::LARGE_ROOM];
    match read_file(rt, makes_file(request), name, &mut text) {
        Some(m) if m <= text.len() => serve(rt, request, name, &text[..m], beside, made),
        _ => false,
    }
}

// Whether a request may make the file.
fn makes_file(request: Request) -> bool {
    matches!(request, Request::Save(_))
}

// Reads a file whole, and gives its length; a failure is told. One that does not exist is empty, where it may be made.
fn read_file(rt: HostRuntime, makes: bool, name: &[u8], text: &mut [u8]) -> Option<usize> {
    match host_calls::open_read(rt, name) {
        Ok(file) => read_open(rt, &mut Source::Named(file), name, text),
        Err(error) => {
            if makes {
                if error.kind() == ErrorKind::NotFound {
                    return Some(0);
                }
            }
            host_calls::fail(rt, name, error);
            None
        }
    }
}

// Reads an open file. What a second read brings is more than a list's text has.
fn read_open(rt: HostRuntime, file: &mut Source, name: &[u8], text: &mut [u8]) -> Option<usize> {
    let length = host_calls::read_or_tell(rt, file, name, text)?;
    let mut more = [0u8; 1];
    let rest = host_calls::read_or_tell(rt, file, name, &mut more)?;
    if rest > 0 {
        tell_not_settings(rt);
        return None;
    }
    Some(length)
}

fn tell_not_settings(rt: HostRuntime) {
    let mut out = [0u8; 128];
    let mut page = Page::new(&mut out);
    settings_replies::put_refusal(Refusal::NOT_SAVED_SETTINGS, &mut page);
    let end = page.used;
    if out.len() < end {
        return;
    }
    command::complain(rt, &out[..end]);
}

// Serves a request with a file's text, and answers whether the file was replaced. What is said is said once it is.
fn serve(
    rt: HostRuntime,
    request: Request,
    name: &[u8],
    text: &[u8],
    beside: &[u8],
    made: Option<File>,
) -> bool {
    let mut file = [0u8; ROOM];
    let mut out = [0u8; ROOM];
    let served = settings_request::serve(request, text, &mut file, &mut out);
    let end = served.file;
    let said = served.said;
    if file.len() < end || out.len() < said {
        return false;
    }
    if served.refused {
        command::complain(rt, &out[..said]);
        return false;
    }
    if served.changed {
        if let Some(beside_it) = made {
            if replace(rt, name, &file[..end], beside, beside_it) {
                say(rt, &out[..said]);
                return true;
            }
        }
        return false;
    }
    say(rt, &out[..said]);
    false
}

// Writes a text to the file beside one, which then takes its name; answers whether it was done. A failure is told, and leaves the file as it was.
fn replace(rt: HostRuntime, name: &[u8], text: &[u8], beside: &[u8], mut made: File) -> bool {
    match write_out(&mut made, text) {
        Ok(()) => whole_file::replace(rt, beside, name),
        Err(error) => {
            host_calls::fail(rt, beside, error);
            false
        }
    }
}

// Writes a text, and waits until it has reached its device.
fn write_out(file: &mut File, text: &[u8]) -> io::Result<()> {
    file.write_all(text)?;
    file.sync_all()
}

// Writes a text to standard output, or says why it cannot.
fn say(rt: HostRuntime, text: &[u8]) {
    host_calls::print_or_tell(rt, text);
}
