// A picture's file, a binary PGM (paper 02, A1; Netpbm's "P5"): its formats; in specs/ what writing and reading one answer, and their laws. What
// writes and reads it is `pgm`.

// The two formats of a picture: a frame's visible lines with borders on, and plain, with borders off.

#![tactic(auto)]

#[derive(Clone, Copy)]
pub enum Format {
    Bordered,
    Plain,
}
