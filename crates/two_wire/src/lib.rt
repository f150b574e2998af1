// The two-wire messages of the sensors (paper 02, A6; 000, 'Serial Interface'; 004, section 5).
//
// In: a sensor's state (128 registers, current index, increment flag) and a message, the list of its acknowledged bytes between start and
// stop or repeated start. Out: the state after it, and whether it was accepted. Refused, in this order, and then nothing has changed: 11
// held index above 127, 24 shorter than two bytes, 25 address, 26 second byte of a read not the index and flag held, 27 read data at an
// index up to 127 differs, 28 data past 127.
// Cost: linear in the message.

#![tactic(auto)]

pub mod register;

ghost use Rattle.std.specs.Prelude.{◌≡◌, ◌≤◌, Ok};
ghost use Rattle.message_data.specs.Registers.{last_index};
ghost use Rattle.two_wire.specs.Messages.{fresh, index_byte, refused, AnswersMessage, write_data, read_data, read_back, addressed, message_on};

use message_data::{left, runs_past, some_differs, store};
use refusal::Refusal;

// A sensor as messages see it. Calls leave an index up to 127; a state with another is refused with 11.
#[derive(Clone, Copy)]
pub struct Sensor {
    pub registers: [u8; 128],
    pub index: u8,
    pub increment: bool,
}

// The state after a message, and its answer: accepted, or refused.
#[derive(Clone, Copy)]
pub struct Seen {
    pub sensor: Sensor,
    pub answer: Result<(), Refusal>,
}

// The first byte of a write, and of a read.
pub const WRITE_ADDRESS: u8 = 32;

const READ_ADDRESS: u8 = 33;

// The last register's index.
pub const LAST_INDEX: u8 = message_data::LAST_INDEX;

// The increment flag in a message's second byte: its top bit.
const INCREMENT: u8 = 128;

impl Sensor {
    // Registers, index and flag all 0.
    pub fn new() -> Sensor
        ensures { result ≡ fresh }
    {
        Sensor {
            registers: [0u8; 128],
            index: 0,
            increment: false,
        }
    }

    // The state after a message: `message_on`.
    pub fn read(self, message: &[u8]) -> Seen
        ensures { AnswersMessage (message_on self message.now) self result }
    {
        let index = self.index;
        if LAST_INDEX < index {
            return self.refused(Refusal::BAD_STATE);
        }
        if message.len() < 2 {
            return self.refused(Refusal::SHORT_MESSAGE);
        }
        self.addressed(message[0], message[1], &message[2..])
    }

    // By the address: a write, a read, or 25.
    fn addressed(self, address: u8, second: u8, bytes: &[u8]) -> Seen
        requires { self.index ≤ last_index }
        ensures { AnswersMessage (addressed self address second bytes.now) self result }
    {
        if address == WRITE_ADDRESS {
            return self.write_data(INCREMENT <= second, second % INCREMENT, bytes);
        }
        if address == READ_ADDRESS {
            return self.read_back(second, bytes);
        }
        self.refused(Refusal::WRONG_ADDRESS)
    }

    // A write of data from an index on.
    fn write_data(self, increment: bool, index: u8, bytes: &[u8]) -> Seen
        ensures { AnswersMessage (write_data self increment index bytes.now) self result }
    {
        let mut registers = self.registers;
        if store(&mut registers, increment, index, bytes) {
            self.refused(Refusal::PAST_LAST_REGISTER)
        } else {
            accepted(registers, left(increment, index, bytes), increment)
        }
    }

    // A read at the current index.
    fn read_back(self, second: u8, bytes: &[u8]) -> Seen
        requires { self.index ≤ last_index }
        ensures { AnswersMessage (read_back self second bytes.now) self result }
    {
        let index = self.index;
        let increment = self.increment;
        let expected = index_byte(increment, index);
        if second == expected {
            return self.read_data(bytes);
        }
        self.refused(Refusal::WRONG_INDEX)
    }

    // A read's data.
    fn read_data(self, bytes: &[u8]) -> Seen
        ensures { AnswersMessage (read_data self bytes.now) self result }
    {
        let registers = self.registers;
        let index = self.index;
        let increment = self.increment;
        let different = some_differs(&registers, increment, index, bytes);
        let past = runs_past(increment, index, bytes);
        if different {
            return self.refused(Refusal::WRONG_DATA);
        }
        if past {
            return self.refused(Refusal::PAST_LAST_REGISTER);
        }
        accepted(registers, left(increment, index, bytes), increment)
    }

    // The same state, and a refusal.
    fn refused(self, refusal: Refusal) -> Seen
        ensures { AnswersMessage (refused refusal.0) self result }
    {
        Seen {
            sensor: self,
            answer: Err(refusal),
        }
    }
}

// A new state, and acceptance.
fn accepted(registers: [u8; 128], index: u8, increment: bool) -> Seen
    ensures { result ≡ record { sensor = record { registers = registers; index = index; increment = increment }; answer = Ok tt } }
{
    let sensor = Sensor {
        registers,
        index,
        increment,
    };
    Seen {
        sensor,
        answer: Ok(()),
    }
}

// A message's second byte: the index, and the flag in its top bit.
fn index_byte(increment: bool, index: u8) -> u8
    requires { index ≤ last_index }
    ensures { result ≡ index_byte increment index }
{
    if increment {
        return INCREMENT + index;
    }
    index
}
