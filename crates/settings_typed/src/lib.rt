// A request about saved settings as it is typed: a verb, and the numbers after it.
//
//     save FINE COARSE GAIN DIVISOR RATE | find VERSION | back VERSION | messages VERSION | list
//
// In: the verb, and how many words follow it, with the numbers that they are; a word that is no number up to 65,535 stands for 65,536 (crate
// setting). Out: the request, and whether the words are understood. Cost: linear in the verb.

#![tactic(auto)]

ghost use Rattle.std.specs.Prelude.{◌≡◌};
ghost use Rattle.settings_typed.specs.RequestWords.{up_to, wanted_in, are_five, is_one, other_asked, asked_in};

use command_word::is;
use saved_setting::Wanted;
use settings_request::Request;

// The greatest number in a word.
const GREATEST: u32 = 65535;

// How many words follow the verb, and the first five of them as numbers.
#[derive(Clone, Copy)]
pub struct NumberWords {
    pub count: usize,
    pub first: u32,
    pub second: u32,
    pub third: u32,
    pub fourth: u32,
    pub fifth: u32,
}

// What is asked for, and whether the words are understood.
#[derive(Clone, Copy)]
pub struct TypedRequest {
    pub request: Request,
    pub understood: bool,
}

// The request of a verb and its numbers.
pub fn read(verb: &[u8], words: NumberWords) -> TypedRequest
    ensures { result ≡ asked_in verb.now words }
{
    if is(verb, b"save") {
        let request = Request::Save(wanted(words));
        return TypedRequest {
            request,
            understood: are_five(words),
        };
    }
    if is(verb, b"find") {
        let request = Request::Find(short(words.first));
        return TypedRequest {
            request,
            understood: is_one(words),
        };
    }
    if is(verb, b"back") {
        let request = Request::Back(short(words.first));
        return TypedRequest {
            request,
            understood: is_one(words),
        };
    }
    read_other(verb, words)
}

// The request of a verb that saves and finds nothing.
fn read_other(verb: &[u8], words: NumberWords) -> TypedRequest
    ensures { result ≡ other_asked verb.now words }
{
    if is(verb, b"messages") {
        let request = Request::Messages(short(words.first));
        return TypedRequest {
            request,
            understood: is_one(words),
        };
    }
    let request = Request::ListAll;
    if is(verb, b"list") {
        return TypedRequest {
            request,
            understood: words.count == 0,
        };
    }
    TypedRequest {
        request,
        understood: false,
    }
}

fn wanted(words: NumberWords) -> Wanted
    ensures { result ≡ wanted_in words }
{
    Wanted {
        fine: short(words.first),
        coarse: short(words.second),
        gain: byte(words.third),
        divisor: byte(words.fourth),
        rate: byte(words.fifth),
    }
}

fn short(n: u32) -> u16
    ensures { result ≡ up_to 65535 n }
{
    if n <= GREATEST {
        return n as u16;
    }
    65535
}

fn byte(n: u32) -> u8
    ensures { result ≡ up_to 255 n }
{
    if n <= 255 {
        return n as u8;
    }
    255
}

// Whether five words follow the verb, the first two of them numbers.
#[tactic(auto, unfolding(crate::specs::RequestWords::are_five))]
fn are_five(words: NumberWords) -> bool
    ensures { result ≡ are_five words }
{
    words.count == 5 && words.first <= GREATEST && words.second <= GREATEST
}

// Whether one number follows the verb.
#[tactic(auto, unfolding(crate::specs::RequestWords::is_one))]
fn is_one(words: NumberWords) -> bool
    ensures { result ≡ is_one words }
{
    words.count == 1 && words.first <= GREATEST
}
