// What a capture tool in C or Rust calls: two lists of profile 0 lines compared, behind numbers and byte slices (paper 02, A13).
//
//   fluturenc_compare(first, second, differences, written)    the differences of two lists: 35, 14, 13, 15, 12
//
// It takes slices (in C a pointer and then a length) and a place for the length filled (a pointer); no two of the slices may overlap. A list is
// its lines end to end, 359 bytes each, as crate line_records has them; the differences are written as crate diff_records has them. The answer is 0,
// and the length in its place; or the refusal, 0 in its place, and nothing is written. Room beyond what is written stays as it was.
//
// Crate fluturenc_lists_c exports this function under its name, for C and Rust.

#![tactic(auto)]

ghost use Rattle.std.specs.Prelude.{length};
ghost use Rattle.exported_call.specs.LentCall.{WriteGives};
ghost use Rattle.diff_lines.specs.Compare.{compare_of};

// The differences of two lists. Refused: 35 numbers that don't rise strictly, 14 a number above 4095, 13 a kind not 1 to 5, 15 a list cut within
// a line, 12 room, in this order, each looked for over both lists before the next.
pub fn fluturenc_compare(
    first: &[u8],
    second: &[u8],
    differences: &mut [u8],
    written: &mut usize,
) -> u8
    ensures { WriteGives (compare_of first.now second.now (length differences.old)) result written.new differences.old differences.new }
{
    let filled = diff_lines::compare(first, second, differences);
    exported_call::number_written(filled, written)
}
