// What C and Rust call of crate fluturenc_means: exact half-line means of a VV5300.
//
// Each function is that crate's own of the same name, with the same clauses. In C a slice is a pointer and then a length, and a `&mut` of a
// number a pointer; no two slices of a call may overlap. For C: c/fluturenc.h.

#![tactic(auto)]

ghost use Rattle.half_means.specs.HalfMeans.{half_values};
ghost use Rattle.fluturenc_means.specs.MeansCall.{in_places, MeansGives};

// The means of a line's two halves, and their differences from the sensor's. Refused: 11 no VV5300, 23 not a visible line, 15 the body's length, 16 a
// body byte or a mean that is not allowed, in this order.
#[unsafe(no_mangle)]
pub extern "C" fn fluturenc_half_means(
    profile: u8,
    kind: u8,
    body: &[u8],
    first: u8,
    second: u8,
    mean1: &mut f64,
    mean2: &mut f64,
    beside1: &mut i32,
    beside2: &mut i32,
) -> u8
    ensures { MeansGives (half_values profile kind body.now first second) result
        (in_places mean1.old mean2.old beside1.old beside2.old)
        (in_places mean1.new mean2.new beside1.new beside2.new) }
{
    fluturenc_means::fluturenc_half_means(
        profile, kind, body, first, second, mean1, mean2, beside1, beside2,
    )
}
