// A file that is saved whole or not at all: it is written beside an older one of its name, and takes that name once it is whole.
//
// Read: what a name stands for. Written: files under names. What cannot be made or renamed is told once, on standard error.

#![tactic(auto)]

ghost use Rattle.std.specs.Prelude.{◌++◌, ◌≤◌, length};
ghost use Rattle.text.specs.Put.{Puts};

use std::fs::File;
use std::io;
use std::io::{Seek, SeekFrom};
use text::put;

// Puts the name of the file beside one, its name with an ending, at the front of a buffer, as far as there is room.
pub fn put_beside(name: &[u8], ending: &[u8], beside: &mut [u8]) -> usize
    ensures { Puts beside.old 0 (name.now ++ ending.now) result beside.new × (result ≤ length beside.new) }
{
    let at = put(name, beside, 0);
    put(ending, beside, at)
}

// Makes a file that is not there yet, or says why it cannot.
pub fn make(rt: HostRuntime, name: &[u8]) -> Option<File> {
    match host_calls::create(rt, name) {
        Ok(file) => Some(file),
        Err(error) => {
            host_calls::fail(rt, name, error);
            None
        }
    }
}

// Gives the file beside one its name, or says why it cannot; and whether it did.
pub fn replace(rt: HostRuntime, beside: &[u8], name: &[u8]) -> bool {
    match host_calls::rename(rt, beside, name) {
        Ok(()) => true,
        Err(error) => {
            host_calls::fail(rt, name, error);
            false
        }
    }
}

// A file that is being written, and how it stands to its name.
#[derive(Drop)]
pub struct Saving {
    pub file: File,
    standing: Standing,
}

// It is new under its name; it is an older one of that name, which held nothing; or it is new beside an older one of that name.
#[derive(Clone, Copy)]
enum Standing {
    New,
    Older,
    Beside,
}

// Opens a file to be written, or says why it cannot. An older one that holds something stays until the new one is whole: that is written
// beside it, under its name with .part, which is made anew: where that name is taken nothing is written.
pub fn begin(rt: HostRuntime, name: &[u8]) -> Option<Saving> {
    match host_calls::create(rt, name) {
        Ok(file) => {
            let standing = Standing::New;
            Some(Saving { file, standing })
        }
        Err(_) => begin_again(rt, name),
    }
}

// The same, where the name may be taken.
fn begin_again(rt: HostRuntime, name: &[u8]) -> Option<Saving> {
    match host_calls::open_update(rt, name) {
        Ok(old) => begin_over(rt, name, old),
        Err(error) => {
            host_calls::fail(rt, name, error);
            None
        }
    }
}

// The same, where there is an older one.
fn begin_over(rt: HostRuntime, name: &[u8], mut old: File) -> Option<Saving> {
    if holds_something(old.seek(SeekFrom::End(0))) {
        drop(old);
        let file = begin_part(rt, name)?;
        let standing = Standing::Beside;
        return Some(Saving { file, standing });
    }
    let standing = Standing::Older;
    Some(Saving {
        file: old,
        standing,
    })
}

// Whether a file holds something, whose end is here. One without a place holds nothing that is kept.
fn holds_something(end: io::Result<u64>) -> bool {
    match end {
        Ok(place) => 0 < place,
        Err(_) => false,
    }
}

fn begin_part(rt: HostRuntime, name: &[u8]) -> Option<File> {
    let mut part = [0u8; host_calls::ROOM];
    let n = put_part(name, &mut part);
    make(rt, &part[..n])
}

// Puts the name of the part at the front of a buffer.
fn put_part(name: &[u8], part: &mut [u8]) -> usize
    ensures { result ≤ length part.new }
{
    put_beside(name, b".part", part)
}

// Ends a file: where it is whole it takes its name, else what was written of it goes.
pub fn end(rt: HostRuntime, saving: Saving, name: &[u8], whole: bool) {
    let Saving { file, standing } = saving;
    drop(file);
    match standing {
        Standing::New => {
            if !whole {
                let _ = host_calls::remove(rt, name);
            }
        }
        Standing::Older => {}
        Standing::Beside => end_part(rt, name, whole),
    }
}

fn end_part(rt: HostRuntime, name: &[u8], whole: bool) {
    let mut part = [0u8; host_calls::ROOM];
    let n = put_part(name, &mut part);
    if whole {
        replace(rt, &part[..n], name);
        return;
    }
    let _ = host_calls::remove(rt, &part[..n]);
}
