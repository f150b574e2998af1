// What is said of a two-wire message: `WRITE 32 1 ok` names the index and the count of data bytes, `REFUSED 27, read data differs` the refusal.
//
// In: an accepted message, or a refusal, and a lent buffer. Out: the text at the front of the buffer, as far as it has room, and its length.
// Cost: constant.

#![tactic(auto)]

ghost use Rattle.text.specs.Pages.{Writes};
ghost use Rattle.text.specs.Put.{Puts};
ghost use Rattle.two_wire_words.specs.Words.{direction_word, accepted_text, refusal_words, refused_text};

use refusal::Refusal;
use text::Page;

// An accepted message: its direction, index and count of data bytes.
pub fn put_accepted(bytes: &[u8], out: &mut [u8]) -> usize
    ensures { Puts out.old 0 (accepted_text bytes.now) result out.new }
{
    if bytes.len() < 2 {
        return 0;
    }
    let mut page = Page::new(out);
    put_direction(bytes[0], &mut page);
    page.put_decimal((bytes[1] % 128) as u64);
    page.put(b" ");
    page.put_decimal((bytes.len() - 2) as u64);
    page.put(b" ok\n");
    page.used
}

fn put_direction(address: u8, page: &mut Page<'_>)
    ensures { Writes (direction_word address) page.old page.new }
{
    if address == two_wire::WRITE_ADDRESS {
        page.put(b"WRITE ");
    } else {
        page.put(b"READ ");
    }
}

// A refusal: its number, and what it means.
pub fn put_refused(refusal: Refusal, out: &mut [u8]) -> usize
    ensures { Puts out.old 0 (refused_text refusal.0) result out.new }
{
    let mut page = Page::new(out);
    page.put(b"REFUSED ");
    page.put_decimal(refusal.0 as u64);
    put_words(refusal, &mut page);
    page.used
}

// What a refusal means, to the line's end.
fn put_words(refusal: Refusal, page: &mut Page<'_>)
    ensures { Writes (refusal_words refusal.0) page.old page.new }
{
    if refusal == Refusal::NO_ROOM {
        return page.put(b", longer than 256 bytes\n");
    }
    if refusal == Refusal::SHORT_MESSAGE {
        return page.put(b", shorter than two bytes\n");
    }
    if refusal == Refusal::WRONG_ADDRESS {
        return page.put(b", address other than 20 and 21\n");
    }
    if refusal == Refusal::WRONG_INDEX {
        return page.put(b", index or increment differs\n");
    }
    if refusal == Refusal::WRONG_DATA {
        return page.put(b", read data differs\n");
    }
    if refusal == Refusal::PAST_LAST_REGISTER {
        return page.put(b", past register 127\n");
    }
    page.put(b", index above 127 held\n");
}
