// What the programs ask of the system they run on: their arguments as bytes, a file or the standard input that is read, files by names of bytes,
// and what is told of a failure.
//
// In: the handle of the running program, which `main` is given. Out: what the system answers; no contract says what that is. A failure is told on
// standard error, as the name of what failed, a colon and the system's text for it. Memory: buffers on the stack alone.

#![tactic(auto)]

ghost use Rattle.std.specs.Prelude.{◌≤◌, length, IfOk, IfSome};

use std::env::{Env, FillError};
use std::fmt::Write;
use std::fs::{File, OpenOptions};
use std::io::{ErrorKind, Print, Read, Stdin};
use std::{fmt, fs, io};

// Room for a name, for one argument, or for a short text: as much as any path of the system has.
pub const ROOM: usize = 4096;

// Room for a piece of an input, or for much text.
pub const LARGE_ROOM: usize = 65536;

// The system's numbers of two failures: an argument that is missing, and one that is too long.
const EINVAL: i32 = 22;

const ENAMETOOLONG: i32 = 36;

// Room for the system's text on a failure.
const TEXT: usize = 128;

// How many arguments the program was started with, its own name among them.
pub fn arg_count(rt: HostRuntime) -> usize {
    let mut none = [0u8; 1];
    for i in 0..usize::MAX {
        if let Err(FillError::NotPresent) = rt.arg(i, &mut none) {
            return i;
        }
    }
    usize::MAX
}

// Puts an argument at the front of a buffer, and gives its length: 0 where it is missing, or longer than the buffer.
pub fn arg(rt: HostRuntime, place: usize, buf: &mut [u8]) -> usize
    ensures { result ≤ length buf.new }
{
    match rt.arg(place, buf) {
        Ok(n) => n,
        Err(_) => 0,
    }
}

// Why an argument has no length: none where it is there, and empty or not.
pub fn arg_failure(rt: HostRuntime, place: usize) -> Option<io::Error> {
    let mut room = [0u8; ROOM];
    match rt.arg(place, &mut room) {
        Ok(_) => None,
        Err(FillError::NotPresent) => Some(io::Error::from_raw_os_error(EINVAL)),
        Err(FillError::TooLong) => Some(io::Error::from_raw_os_error(ENAMETOOLONG)),
    }
}

// What is read: standard input, or a file.
#[derive(Drop)]
pub enum Source {
    Standard(Stdin),
    Named(File),
}

// Reads once, to the front of a buffer, and gives how many bytes came: none at the input's end.
pub fn read(source: &mut Source, buf: &mut [u8]) -> io::Result<usize>
    ensures { IfOk result (λ n. n ≤ length buf.new) }
{
    match source {
        Source::Standard(input) => input.read(buf),
        Source::Named(file) => file.read(buf),
    }
}

// Reads once, as `read` does, or tells why it cannot what has this name.
pub fn read_or_tell(
    rt: HostRuntime,
    source: &mut Source,
    name: &[u8],
    buf: &mut [u8],
) -> Option<usize>
    ensures { IfSome result (λ n. n ≤ length buf.new) }
{
    match read(source, buf) {
        Ok(n) => Some(n),
        Err(error) => {
            fail(rt, name, error);
            None
        }
    }
}

// Reads until a buffer is full, the input ends or a read fails, and gives how many bytes came to its front.
pub fn read_full(source: &mut Source, buf: &mut [u8]) -> usize
    ensures { result ≤ length buf.new }
{
    let mut done: usize = 0;
    // Not a for: each turn goes on by what the read brought.
    while done < buf.len() {
        let n = match read(source, &mut buf[done..]) {
            Ok(n) => n,
            Err(_) => 0,
        };
        if n == 0 {
            return done;
        }
        done += n;
    }
    done
}

// Opens the file of a name for reading.
pub fn open_read(rt: HostRuntime, name: &[u8]) -> io::Result<File> {
    File::open(&rt, as_path(name)?)
}

// Opens the file of a name for reading and writing, and leaves its bytes as they are.
pub fn open_update(rt: HostRuntime, name: &[u8]) -> io::Result<File> {
    OpenOptions::new()
        .read(true)
        .write(true)
        .open(&rt, as_path(name)?)
}

// Makes the file of a name that is not taken, and opens it for writing.
pub fn create(rt: HostRuntime, name: &[u8]) -> io::Result<File> {
    OpenOptions::new()
        .write(true)
        .create_new(true)
        .open(&rt, as_path(name)?)
}

// Gives a file another name.
pub fn rename(rt: HostRuntime, from: &[u8], to: &[u8]) -> io::Result<()> {
    fs::rename(&rt, as_path(from)?, as_path(to)?)
}

// Takes a file's name away.
pub fn remove(rt: HostRuntime, name: &[u8]) -> io::Result<()> {
    fs::remove_file(&rt, as_path(name)?)
}

// A name as the library takes one: a text in UTF-8.
fn as_path(name: &[u8]) -> io::Result<&str> {
    match std::str::from_utf8(name) {
        Ok(path) => Ok(path),
        Err(_) => Err(io::Error::from(ErrorKind::InvalidFilename)),
    }
}

// Writes a text to standard output, or tells why it cannot; and whether it did.
pub fn print_or_tell(rt: HostRuntime, text: &[u8]) -> bool {
    match rt.stdout().write_all(text) {
        Ok(()) => true,
        Err(error) => {
            fail(rt, b"standard output", error);
            false
        }
    }
}

// Writes a text to standard error.
pub fn complain(rt: HostRuntime, text: &[u8]) {
    let _ = rt.stderr().write_all(text);
}

// Writes a line to standard error: what failed, as the caller names it, a colon and the system's text for the failure.
pub fn fail(rt: HostRuntime, what: &[u8], error: io::Error) {
    let mut text = Text {
        bytes: [0; TEXT],
        length: 0,
    };
    let _ = write!(text, "{error}");
    complain(rt, what);
    complain(rt, b": ");
    complain_front(rt, &text.bytes, words(&text));
    complain(rt, b"\n");
}

// Writes the front of a text to standard error.
fn complain_front(rt: HostRuntime, text: &[u8], count: usize) {
    if count <= text.len() {
        complain(rt, &text[..count]);
    }
}

// A text that is formatted into a fixed room; what has no room is left out.
#[derive(Drop)]
struct Text {
    bytes: [u8; TEXT],
    length: usize,
}

impl fmt::Write for Text {
    fn write_str(&mut self, s: &str) -> fmt::Result {
        for byte in s.as_bytes() {
            self.push(*byte);
        }
        Ok(())
    }
}

impl Text {
    fn push(&mut self, byte: u8) {
        let length = self.length;
        if length < TEXT {
            self.bytes[length] = byte;
            self.length = length + 1;
        }
    }
}

// How long a failure's text is without the number that the library puts behind it, as in "No such file or directory (os error 2)".
fn words(text: &Text) -> usize {
    for place in 0..text.length {
        if begins_number(&text.bytes, place) {
            return place;
        }
    }
    text.length
}

// Whether the number of a failure begins at a place of its text.
fn begins_number(text: &[u8], place: usize) -> bool {
    place <= text.len() && text[place..].starts_with(b" (os error ")
}
