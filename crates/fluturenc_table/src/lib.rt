// A table of eight readers for a capture tool in C or Rust that two technicians share: numbers and byte slices, beside crate fluturenc.
//
//   fluturenc_table_length()                                             the bytes of a table: 2,968
//   fluturenc_table_new(table)                                           a table of free places: 0; or 12 fewer bytes than that
//   fluturenc_table_open(table, technician, profile)                     the place, 0 to 7; or 11, 32, 11 no such profile, 33 no place free
//   fluturenc_table_feed(table, technician, place, nibbles, line, taken) as fluturenc_feed of the place's reader; or 11, 32, 34
//   fluturenc_table_finish(table, technician, place)                     as fluturenc_finish; or 11, 32, 34
//   fluturenc_table_close(table, technician, place)                      0; or 11, 32, 34
//
// 11 comes first where the bytes are fewer than a table's. Refused calls change nothing, but that what stood before a 10 is taken. A place is
// its owner's byte and a reader's state as crate fluturenc has it, and each call works on that in place.
//
// Crate fluturenc_table_c exports these functions under their names, for C and Rust.

#![tactic(auto)]

ghost use Rattle.std.specs.Prelude.{◌≡◌, ◌≤◌, length};
ghost use Rattle.technician.specs.Technician.{denial_for};
ghost use Rattle.reader_table.specs.Table.{place_count};
ghost use Rattle.exported_call.specs.LentCall.{StateGives};
ghost use Rattle.fluturenc.specs.Gives.{FeedCallGives};
ghost use Rattle.fluturenc_table.specs.TableBytes.{table_length, lowest_from, denial_at};
ghost use Rattle.fluturenc_table.specs.TableCalls.{places_freed, new_table, open_lowest, open_table, feed_table, finish_table, close_table};

use profile::Profile;
use refusal::Refusal;

// The bytes of a reader's state, of a place, and of a table.
const STATE: usize = 370;

const PLACE: usize = 1 + STATE;

const TABLE: usize = COUNT * PLACE;

const COUNT: usize = reader_table::PLACES;

const NOBODY: u8 = 0;

// The bytes of a table.
pub fn fluturenc_table_length() -> usize
    ensures { result ≡ table_length }
{
    TABLE
}

// A table of free places. Refused: 12.
#[tactic(auto, unfolding(crate::specs::TableCalls::new_table))]
pub fn fluturenc_table_new(table: &mut [u8]) -> u8
    ensures { StateGives (new_table table.old) result table.new }
{
    if table.len() < TABLE {
        return Refusal::NO_ROOM.0;
    }
    free_all(table);
    0
}

// Gives the lowest free place to a technician, with a fresh reader of the profile with this number.
#[tactic(auto, unfolding(crate::specs::TableCalls::open_table))]
pub fn fluturenc_table_open(table: &mut [u8], technician: u8, profile: u8) -> u8
    ensures { StateGives (open_table table.old technician profile) result table.new }
{
    if table.len() < TABLE {
        return Refusal::BAD_STATE.0;
    }
    if technician::is_technician(technician) {
        return match Profile::numbered(profile) {
            Some(_) => open_lowest(table, technician, profile),
            None => Refusal::BAD_STATE.0,
        };
    }
    Refusal::NO_SUCH_TECHNICIAN.0
}

// Feeds nibbles to the reader of a place until one brings an answer or none is left.
#[tactic(auto, unfolding(crate::specs::TableCalls::feed_table, crate::specs::TableBytes::state_at, crate::specs::TableBytes::with_state, crate::specs::TableBytes::place_start))]
pub fn fluturenc_table_feed(
    table: &mut [u8],
    technician: u8,
    place: usize,
    nibbles: &[u8],
    line: &mut [u8],
    taken: &mut usize,
) -> u64
    ensures { FeedCallGives (feed_table table.old technician place nibbles.now line.old) result taken.new table.new line.new }
{
    *taken = 0;
    match denial_at(table, technician, place) {
        None => {
            let from = PLACE * place + 1;
            fluturenc::fluturenc_feed(&mut table[from..from + STATE], nibbles, line, taken)
        }
        Some(refusal) => refusal.0 as u64,
    }
}

// Answers the last mark of a place, and leaves it a fresh reader; the place stays its technician's.
#[tactic(auto, unfolding(crate::specs::TableCalls::finish_table, crate::specs::TableBytes::state_at, crate::specs::TableBytes::with_state, crate::specs::TableBytes::place_start))]
pub fn fluturenc_table_finish(table: &mut [u8], technician: u8, place: usize) -> u64
    ensures { StateGives (finish_table table.old technician place) result table.new }
{
    match denial_at(table, technician, place) {
        None => {
            let from = PLACE * place + 1;
            fluturenc::fluturenc_finish(&mut table[from..from + STATE])
        }
        Some(refusal) => refusal.0 as u64,
    }
}

// Frees a place.
#[tactic(auto, unfolding(crate::specs::TableCalls::close_table, crate::specs::TableBytes::place_start))]
pub fn fluturenc_table_close(table: &mut [u8], technician: u8, place: usize) -> u8
    ensures { StateGives (close_table table.old technician place) result table.new }
{
    match denial_at(table, technician, place) {
        None => {
            table[PLACE * place] = NOBODY;
            0
        }
        Some(refusal) => refusal.0,
    }
}

// What a technician is refused of a place; nothing where it is theirs.
#[tactic(auto, unfolding(crate::specs::TableBytes::denial_at, crate::specs::TableBytes::owner_at, crate::specs::TableBytes::place_start))]
fn denial_at(table: &[u8], technician: u8, place: usize) -> Option<Refusal>
    ensures { result ≡ denial_for (denial_at table.now technician place) }
{
    if table.len() < TABLE {
        return Some(Refusal::BAD_STATE);
    }
    if place < COUNT {
        return technician::denial(technician, table[PLACE * place]);
    }
    technician::denial(technician, NOBODY)
}

#[tactic(auto, unfolding(crate::specs::TableCalls::open_lowest, crate::specs::TableCalls::opened_at, crate::specs::TableBytes::state_at, crate::specs::TableBytes::with_state, crate::specs::TableBytes::place_start))]
fn open_lowest(table: &mut [u8], technician: u8, profile: u8) -> u8
    requires { table_length ≤ length table.old }
    ensures { StateGives (open_lowest table.old technician profile (lowest_from place_count 0 table.old)) result table.new }
{
    let place = lowest_free(table);
    if place < COUNT {
        let from = PLACE * place + 1;
        fluturenc::fluturenc_open(profile, &mut table[from..from + STATE]);
        table[PLACE * place] = technician;
        return place as u8;
    }
    Refusal::NO_PLACE_FREE.0
}

// The lowest free place; the count of places where all are taken.
#[tactic(auto, unfolding(crate::specs::TableBytes::place_start))]
fn lowest_free(table: &[u8]) -> usize
    requires { table_length ≤ length table.now }
    ensures { result ≡ lowest_from place_count 0 table.now }
{
    for i in 0..COUNT {
        if table[PLACE * i] == NOBODY {
            return i;
        }
    }
    COUNT
}

#[tactic(auto, unfolding(crate::specs::TableBytes::place_start))]
fn free_all(table: &mut [u8])
    requires { table_length ≤ length table.old }
    ensures { table.new ≡ places_freed place_count table.old }
{
    for i in 0..COUNT {
        table[PLACE * i] = NOBODY;
    }
}
