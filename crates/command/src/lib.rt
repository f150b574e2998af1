// The arguments of a program, read word by word, and the file or the standard input that it reads.
//
// In: what the program takes (crate command_words). Out: what its arguments ask for, whatever they are, and whether all were understood; an input
// by its place among them. Cost: linear in the words.

#![tactic(auto)]

ghost use Rattle.std.specs.Prelude.{◌-◌, ◌≤◌, length, IfSome};
ghost use Rattle.command.specs.Arguments.{sensor_and_file, AskedByAll, AskedBySome};

use command_word::meaning;
use command_words::{Asked, Usage};
use host_calls::Source;
use std::io::IsTerminal;
use text::put;

// Reads the arguments of a program that takes a sensor and a file: `[vv5404|vv6404|vv5300] [FILE]`.
pub fn sensor_and_file(rt: HostRuntime) -> Asked
    ensures { AskedBySome sensor_and_file result }
{
    words(
        rt,
        Usage {
            mark: false,
            odd: false,
            output: false,
            second: false,
        },
    )
}

// Reads the arguments of a program that takes these.
pub fn words(rt: HostRuntime, usage: Usage) -> Asked
    ensures { AskedBySome usage result }
{
    let count = host_calls::arg_count(rt);
    words_below(rt, usage, count)
}

// Reads the arguments below a place, one after another.
fn words_below(rt: HostRuntime, usage: Usage, count: usize) -> Asked
    ensures { AskedByAll usage (count - 1) result }
{
    let mut asked = Asked::new();
    for i in 1..count {
        let mut buf = [0u8; host_calls::ROOM];
        let n = host_calls::arg(rt, i, &mut buf);
        asked = asked.with(usage, meaning(&buf[..n]), i);
    }
    asked.end()
}

// An input: what is read, and how many bytes its name has.
#[derive(Drop)]
pub struct Input {
    pub source: Source,
    pub length: usize,
}

// Opens the capture at a place among the arguments.
pub fn open_capture(rt: HostRuntime, file: usize, name: &mut [u8]) -> Option<Input>
    ensures { IfSome result (λ i. i.length ≤ length name.new) }
{
    open(
        rt,
        file,
        b"waiting for a capture on standard input (or give a file's name)\n",
        name,
    )
}

// Opens the file at a place among the arguments, or standard input for 0, and puts its name at the front of a buffer. None where a file can't
// be opened, which is told. Where standard input is a terminal, says what is waited for.
pub fn open(rt: HostRuntime, file: usize, waiting: &[u8], name: &mut [u8]) -> Option<Input>
    ensures { IfSome result (λ i. i.length ≤ length name.new) }
{
    if file == 0 {
        let input = rt.stdin();
        if input.is_terminal() {
            complain(rt, waiting);
        }
        let length = name_input(name);
        let source = Source::Standard(input);
        return Some(Input { source, length });
    }
    let length = host_calls::arg(rt, file, name);
    if length == 0 {
        tell_no_name(rt, file);
        return None;
    }
    match host_calls::open_read(rt, &name[..length]) {
        Ok(opened) => {
            let source = Source::Named(opened);
            Some(Input { source, length })
        }
        Err(error) => {
            host_calls::fail(rt, &name[..length], error);
            None
        }
    }
}

// Puts the name of standard input at the front of a buffer.
fn name_input(name: &mut [u8]) -> usize
    ensures { result ≤ length name.new }
{
    put(b"standard input", name, 0)
}

// Tells why the argument at a place is no file's name: it is empty, or longer than any.
pub fn tell_no_name(rt: HostRuntime, place: usize) {
    match host_calls::arg_failure(rt, place) {
        None => complain(rt, b"the name of a file is empty\n"),
        Some(error) => host_calls::fail(rt, b"the name of a file", error),
    }
}

// Writes a line to standard error.
pub fn complain(rt: HostRuntime, text: &[u8]) {
    host_calls::complain(rt, text);
}
