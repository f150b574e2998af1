// What C and Rust call of crate fluturenc_table: a table of readers for two technicians.
//
// Each function is that crate's own of the same name, with the same clauses. In C a slice is a pointer and then a length, and a `&mut` of a
// number a pointer; no two slices of a call may overlap. For C: c/fluturenc.h.

#![tactic(auto)]

ghost use Rattle.std.specs.Prelude.{◌≡◌};
ghost use Rattle.exported_call.specs.LentCall.{StateGives};
ghost use Rattle.fluturenc.specs.Gives.{FeedCallGives};
ghost use Rattle.fluturenc_table.specs.TableBytes.{table_length};
ghost use Rattle.fluturenc_table.specs.TableCalls.{new_table, open_table, feed_table, finish_table, close_table};

// The bytes of a table.
#[unsafe(no_mangle)]
pub extern "C" fn fluturenc_table_length() -> usize
    ensures { result ≡ table_length }
{
    fluturenc_table::fluturenc_table_length()
}

// A table of free places. Refused: 12.
#[unsafe(no_mangle)]
pub extern "C" fn fluturenc_table_new(table: &mut [u8]) -> u8
    ensures { StateGives (new_table table.old) result table.new }
{
    fluturenc_table::fluturenc_table_new(table)
}

// Gives the lowest free place to a technician, with a fresh reader of the profile with this number.
#[unsafe(no_mangle)]
pub extern "C" fn fluturenc_table_open(table: &mut [u8], technician: u8, profile: u8) -> u8
    ensures { StateGives (open_table table.old technician profile) result table.new }
{
    fluturenc_table::fluturenc_table_open(table, technician, profile)
}

// Feeds nibbles to the reader of a place until one brings an answer or none is left.
#[unsafe(no_mangle)]
pub extern "C" fn fluturenc_table_feed(
    table: &mut [u8],
    technician: u8,
    place: usize,
    nibbles: &[u8],
    line: &mut [u8],
    taken: &mut usize,
) -> u64
    ensures { FeedCallGives (feed_table table.old technician place nibbles.now line.old) result taken.new table.new line.new }
{
    fluturenc_table::fluturenc_table_feed(table, technician, place, nibbles, line, taken)
}

// Answers the last mark of a place, and leaves it a fresh reader; the place stays its technician's.
#[unsafe(no_mangle)]
pub extern "C" fn fluturenc_table_finish(table: &mut [u8], technician: u8, place: usize) -> u64
    ensures { StateGives (finish_table table.old technician place) result table.new }
{
    fluturenc_table::fluturenc_table_finish(table, technician, place)
}

// Frees a place.
#[unsafe(no_mangle)]
pub extern "C" fn fluturenc_table_close(table: &mut [u8], technician: u8, place: usize) -> u8
    ensures { StateGives (close_table table.old technician place) result table.new }
{
    fluturenc_table::fluturenc_table_close(table, technician, place)
}
