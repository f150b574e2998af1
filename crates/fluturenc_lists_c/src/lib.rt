// What C and Rust call of crate fluturenc_lists: two lists of lines compared.
//
// Each function is that crate's own of the same name, with the same clauses. In C a slice is a pointer and then a length, and a `&mut` of a
// number a pointer; no two slices of a call may overlap. For C: c/fluturenc.h.

#![tactic(auto)]

ghost use Rattle.std.specs.Prelude.{length};
ghost use Rattle.exported_call.specs.LentCall.{WriteGives};
ghost use Rattle.diff_lines.specs.Compare.{compare_of};

// The differences of two lists. Refused: 35 numbers that don't rise strictly, 14 a number above 4095, 13 a kind not 1 to 5, 15 a list cut within
// a line, 12 room, in this order, each looked for over both lists before the next.
#[unsafe(no_mangle)]
pub extern "C" fn fluturenc_compare(
    first: &[u8],
    second: &[u8],
    differences: &mut [u8],
    written: &mut usize,
) -> u8
    ensures { WriteGives (compare_of first.now second.now (length differences.old)) result written.new differences.old differences.new }
{
    fluturenc_lists::fluturenc_compare(first, second, differences, written)
}
