// Settings and messages of a sensor's two-wire bus: reads a script of them from a file or standard input, and writes the text for each line
// (crate register_script). Messages are read one after another against the state of one sensor, fresh at the start.
// The sensor is the VV5404, or the VV5300 where an argument names it. Standard output has messages, and what is told of captured ones; a line
// that is refused is told on standard error, where no bus takes it for a message. A failed read or write is told there too, and ends the run.

#![tactic(auto)]

use command::Input;
use command_words::Asked;
use host_calls::Source;
use profile::Profile;
use register_script::Script;

fn main(rt: HostRuntime) {
    let asked = command::sensor_and_file(rt);
    if asked.understood {
        read_asked(rt, asked);
    } else {
        command::complain(rt, b"usage: registers [vv5404|vv6404|vv5300] [FILE]\n");
    }
}

fn read_asked(rt: HostRuntime, asked: Asked) {
    let mut name = [0u8; host_calls::ROOM];
    let opened = command::open(
        rt,
        asked.first,
        b"waiting for settings and messages, one to a line; Ctrl-D ends them\n",
        &mut name,
    );
    if let Some(Input { mut source, length }) = opened {
        read_all(rt, asked.profile, &mut source, &name[..length]);
    }
}

// Reads a script to its end. Nothing says that an input ends, so the loop counts its turns, to a number that no run reaches.
fn read_all(rt: HostRuntime, profile: Profile, source: &mut Source, name: &[u8]) {
    let mut kept = [0u8; host_calls::ROOM];
    let mut script = Script::new(profile);
    for _ in 0..u64::MAX {
        let Some(next) = read_some(rt, script, source, name, &mut kept) else {
            return;
        };
        script = next;
    }
}

// Reads once, and answers what came: the script to read on with, none where the input has ended or a read or a write has failed. The input's end
// ends its last line.
fn read_some(
    rt: HostRuntime,
    script: Script,
    source: &mut Source,
    name: &[u8],
    kept: &mut [u8],
) -> Option<Script> {
    let mut buf = [0u8; host_calls::LARGE_ROOM];
    let n = host_calls::read_or_tell(rt, source, name, &mut buf)?;
    if n == 0 {
        feed(rt, script, b'\n', kept);
        return None;
    }
    answer(rt, script, &buf[..n], kept)
}

// The text for each line that a piece ends.
fn answer(rt: HostRuntime, script: Script, piece: &[u8], kept: &mut [u8]) -> Option<Script> {
    let mut script = script;
    for c in piece {
        script = feed(rt, script, *c, kept)?;
    }
    Some(script)
}

// Feeds a byte, and writes what it brings: none where that fails.
fn feed(rt: HostRuntime, script: Script, c: u8, kept: &mut [u8]) -> Option<Script> {
    let mut out = [0u8; 128];
    let fed = script.feed(c, kept, &mut out);
    let n = fed.length;
    if write(rt, fed.refused, &out[..n]) {
        Some(fed.script)
    } else {
        None
    }
}

// Writes a text, of a line that is refused or not, or says why it cannot.
fn write(rt: HostRuntime, refused: bool, text: &[u8]) -> bool {
    if refused {
        command::complain(rt, text);
        return true;
    }
    host_calls::print_or_tell(rt, text)
}
