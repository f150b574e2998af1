// Exact means of a VV5300 line's two halves (paper 02, A10).
//
// In: a profile and a line's kind by number, its body, and the two means that the sensor sent after it. Out: the mean of image places 16 to 79
// and of 80 to 143, each the sum divided by 64 with nothing lost; the two sums; and beside each the signed difference 64 times the sensor's
// byte minus the sum, between -16,192 and 16,192. Nothing is judged. Refused, in this order: 11 no VV5300, 23 not a visible line, 15 the
// body's length, 16 a body byte or a mean that is not allowed. Cost: linear in the body.

#![tactic(auto)]

ghost use Rattle.std.specs.Prelude.{◌≡◌, ◌≤◌, length, Ok};
ghost use Rattle.half_means.specs.HalfMeans.{half_length, total, half_at, sixty_fourth, difference, values_of, beside_of, half_values};
ghost use Rattle.profile.specs.Profile.{body_length};
ghost use Rattle.profile.specs.declared.Profile.TheVariants as profiles;

use line_code::Kind;
use profile::Profile;
use refusal::Refusal;

// The exact means of a line's two halves.
#[derive(Clone, Copy)]
pub struct Means {
    pub first: f64,
    pub second: f64,
}

// The sums that they are of.
#[derive(Clone, Copy)]
pub struct Sums {
    pub first: u16,
    pub second: u16,
}

// What is said of a line's two halves: the means, the sums, and the first half's difference and the second's.
#[derive(Clone, Copy)]
pub struct Halves {
    pub means: Means,
    pub sums: Sums,
    pub first_difference: i32,
    pub second_difference: i32,
}

// The number of the profile that has line means.
const VV5300: u8 = 1;

// The image places where the halves start.
const FIRST: usize = 16;

const SECOND: usize = 80;

// The pixels of a half.
pub const HALF: u16 = 64;

// What is said of a line's two halves.
pub fn of_line(profile: u8, kind: u8, body: &[u8], first: u8, second: u8) -> Result<Halves, Refusal>
    ensures { values_of result ≡ half_values profile kind body.now first second }
{
    if profile != VV5300 {
        return Err(Refusal::BAD_STATE);
    }
    if kind != Kind::VL.number() {
        return Err(Refusal::NOT_VISIBLE);
    }
    if body.len() != Profile::VV5300.body_length() {
        return Err(Refusal::WRONG_BODY_LENGTH);
    }
    if line_layout::body_fits(Profile::VV5300, Kind::VL, body) {
        if line_layout::gap_fits(Profile::VV5300, Kind::VL, first, second) {
            let halves = beside(half_sum(body, FIRST), half_sum(body, SECOND), first, second);
            return Ok(halves);
        }
    }
    Err(Refusal::BYTE_NOT_ALLOWED)
}

// What is said of two sums beside the sensor's two means.
fn beside(s: u16, t: u16, first: u8, second: u8) -> Halves
    ensures { values_of (Ok result) ≡ beside_of s t first second }
{
    let means = Means {
        first: mean(s),
        second: mean(t),
    };
    let sums = Sums {
        first: s,
        second: t,
    };
    Halves {
        means,
        sums,
        first_difference: difference(first, s),
        second_difference: difference(second, t),
    }
}

// The sum divided by 64: an f64 holds both, and the quotient, exactly.
fn mean(sum: u16) -> f64
    ensures { result ≡ sixty_fourth sum }
{
    sum as f64 / HALF as f64
}

// 64 times the sensor's byte, minus the sum.
fn difference(byte: u8, sum: u16) -> i32
    ensures { result ≡ difference byte sum }
{
    let scaled = HALF * byte as u16;
    scaled as i32 - sum as i32
}

// The sum of the half that starts at an image place.
fn half_sum(body: &[u8], place: usize) -> u16
    requires { (length body.now ≡ body_length profiles.VV5300) × (place ≤ 80) }
    ensures { result ≡ total (half_at place body.now) }
{
    let start = Profile::VV5300.image_start() + place;
    total(&body[start..start + HALF as usize])
}

// The sum of a half's bytes.
fn total(half: &[u8]) -> u16
    requires { length half.now ≤ half_length }
    ensures { result ≡ total half.now }
{
    let mut sum: u16 = 0;
    for byte in half {
        sum += *byte as u16;
    }
    sum
}
