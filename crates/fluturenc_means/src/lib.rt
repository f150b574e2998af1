// What a capture tool in C or Rust calls: exact half-line means of a VV5300, behind numbers and byte slices (paper 02, A10).
//
//   fluturenc_half_means(profile, kind, body, first, second, mean1, mean2, beside1, beside2)    the means of a line's two halves: 11, 23, 15, 16
//
// It takes numbers, a line's body (in C a pointer and then a length), and four places (pointers): for the exact mean of image places 16 to 79, and of
// 80 to 143, and for the signed difference of the sensor's mean, first or second, from each: 64 times the byte minus the sum. The answer is 0; or the
// refusal, and the four places stay as they were.
//
// Crate fluturenc_means_c exports this function under its name, for C and Rust.

#![tactic(auto)]

ghost use Rattle.half_means.specs.HalfMeans.{half_values};
ghost use Rattle.fluturenc_means.specs.MeansCall.{in_places, MeansGives};

// The means of a line's two halves, and their differences from the sensor's. Refused: 11 no VV5300, 23 not a visible line, 15 the body's length, 16 a
// body byte or a mean that is not allowed, in this order.
pub fn fluturenc_half_means(
    profile: u8,
    kind: u8,
    body: &[u8],
    first: u8,
    second: u8,
    mean1: &mut f64,
    mean2: &mut f64,
    beside1: &mut i32,
    beside2: &mut i32,
) -> u8
    ensures { MeansGives (half_values profile kind body.now first second) result
        (in_places mean1.old mean2.old beside1.old beside2.old)
        (in_places mean1.new mean2.new beside1.new beside2.new) }
{
    let halves = half_means::of_line(profile, kind, body, first, second);
    match halves {
        Ok(halves) => {
            let means = halves.means;
            *mean1 = means.first;
            *mean2 = means.second;
            *beside1 = halves.first_difference;
            *beside2 = halves.second_difference;
            0
        }
        Err(refusal) => refusal.0,
    }
}
