// Lent buffers: what a call has written there.
use crate::plain::say_counted;

// What a buffer holds before a call: no nibble, and no byte of the bodies here.
pub const UNTOUCHED: u8 = 0xAA;

// Writes how many bytes of a buffer are not as before a call.
pub fn say_changed(rt: HostRuntime, buffer: &[u8]) {
    say_counted(
        rt,
        b"  ",
        changed(buffer) as u64,
        b" bytes of the buffer changed\n",
    );
}

fn changed(buffer: &[u8]) -> usize {
    buffer.iter().filter(|byte| **byte != UNTOUCHED).count()
}

// Writes in how many places two texts differ, as far as both go.
pub fn say_differing(rt: HostRuntime, one: &[u8], other: &[u8]) {
    say_counted(
        rt,
        b"  ",
        differing(one, other) as u64,
        b" bytes of the body differ\n",
    );
}

fn differing(one: &[u8], other: &[u8]) -> usize {
    one.iter()
        .zip(other)
        .filter(|pair| *pair.0 != *pair.1)
        .count()
}
