// What the data of a two-wire message does to a sensor's registers (paper 02, A6).
//
// In: the increment flag, the index that the first byte stands at, and the data; the 128 registers where they are asked for. Out: whether a byte
// would stand past the last index; the index left; the registers with the data stored; whether a byte read differs. Nothing is refused: these are
// total, of any index. Cost: linear in the data.

#![tactic(auto)]

ghost use Rattle.std.specs.Prelude.{◌≡◌, false, ◌≤◌};
ghost use Rattle.message_data.specs.Registers.{last_index, next, runs_past, reached, left, put, stored, stored_whole, differs, some_differs};

// How many registers there are, and the last one's index.
const REGISTERS: u8 = 128;

pub const LAST_INDEX: u8 = 127;

// The registers below this one are the sensor's own.
const FIRST_SETTABLE: u8 = 5;

// Whether a byte of the data would stand past the last index.
pub fn runs_past(increment: bool, index: u8, bytes: &[u8]) -> bool
    ensures { result ≡ runs_past increment index bytes.now }
{
    if LAST_INDEX < index {
        return 0 < bytes.len();
    }
    increment && ((REGISTERS - index) as usize) < bytes.len()
}

// The index that data leaves.
pub fn left(increment: bool, index: u8, bytes: &[u8]) -> u8
    ensures { result ≡ left (reached increment index bytes.now) }
{
    if LAST_INDEX < index {
        return 0;
    }
    if increment {
        if ((LAST_INDEX - index) as usize) < bytes.len() {
            return 0;
        }
        return index + bytes.len() as u8;
    }
    index
}

// Stores a write's data whole, or where a byte of it would stand past the last index, none of it: whether it would.
pub fn store(registers: &mut [u8; 128], increment: bool, index: u8, bytes: &[u8]) -> bool
    ensures { (result ≡ runs_past increment index bytes.now) × (registers.new ≡ stored_whole increment index bytes.now registers.old) }
{
    if runs_past(increment, index, bytes) {
        return true;
    }
    put_all(registers, increment, index, bytes);
    false
}

// Whether a byte of a read's data differs. Nothing past the last index is compared.
pub fn some_differs(registers: &[u8; 128], increment: bool, index: u8, bytes: &[u8]) -> bool
    ensures { result ≡ some_differs increment index bytes.now registers.now }
{
    let mut at = index;
    for byte in bytes {
        if LAST_INDEX < at {
            return false;
        }
        if differs(registers, at, *byte) {
            return true;
        }
        at = next(increment, at);
    }
    false
}

// Stores data that does not pass the last index.
fn put_all(registers: &mut [u8; 128], increment: bool, index: u8, bytes: &[u8])
    requires { runs_past increment index bytes.now ≡ false }
    ensures { registers.new ≡ stored increment index bytes.now registers.old }
{
    let mut at = index;
    for byte in bytes {
        put(registers, at, *byte);
        at = next(increment, at);
    }
}

// Stores one byte, but not in the sensor's own registers.
fn put(registers: &mut [u8; 128], index: u8, byte: u8)
    requires { index ≤ last_index }
    ensures { registers.new ≡ put registers.old index byte }
{
    if index < FIRST_SETTABLE {
        return;
    }
    registers[index as usize] = byte;
}

// The index after a data byte's.
fn next(increment: bool, index: u8) -> u8
    requires { index ≤ last_index }
    ensures { result ≡ next increment index }
{
    if increment {
        return index + 1;
    }
    index
}

// Whether a byte differs from its register. The sensor's own registers are not compared.
fn differs(registers: &[u8; 128], index: u8, byte: u8) -> bool
    requires { index ≤ last_index }
    ensures { result ≡ differs registers.now index byte }
{
    FIRST_SETTABLE <= index && registers[index as usize] != byte
}
