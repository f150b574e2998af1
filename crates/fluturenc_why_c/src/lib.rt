// What C and Rust call of crate fluturenc_why: why a mark is answered as it is.
//
// Each function is that crate's own of the same name, with the same clauses. In C a slice is a pointer and then a length, and a `&mut` of a
// number a pointer; no two slices of a call may overlap. For C: c/fluturenc.h.

#![tactic(auto)]

ghost use Rattle.reason.specs.Valued.{explanation_values};
ghost use Rattle.fluturenc_why.specs.Why.{WhyGives};

// Why the run's first mark is answered as it is: by the number of the profile, and that of the kind of the mark before, 0 for none or no line kind.
#[unsafe(no_mangle)]
pub extern "C" fn fluturenc_why(
    profile: u8,
    before: u8,
    run: &[u8],
    first: &mut usize,
    second: &mut usize,
) -> u8
    ensures { WhyGives (explanation_values profile before run.now) result first.new second.new }
{
    fluturenc_why::fluturenc_why(profile, before, run, first, second)
}
