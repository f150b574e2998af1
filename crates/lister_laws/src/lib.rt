// What the listers of a capture share (crates list_marks, list_frames and list_means): a text told nibble by nibble into lent buffers, laws of it,
// and the test of whether a lister goes on. Cost: constant.

#![tactic(auto)]

ghost use Rattle.std.specs.Prelude.{◌≡◌, ◌&&◌, ◌/◌, leb, ltb};

// Whether a nibble is left at a place of so many bytes, and room for the most that a text asks for.
pub fn goes_on(bytes: usize, at: usize, most: usize, room: usize) -> bool
    ensures { result ≡ (ltb (at / 2) bytes && leb most room) }
{
    if at / 2 < bytes {
        return most <= room;
    }
    false
}
