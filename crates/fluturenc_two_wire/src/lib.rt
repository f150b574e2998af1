// What a capture tool in C or Rust calls: the two-wire messages of the sensors behind numbers and byte slices (paper 02, A6).
//
// Each exported function takes numbers, slices (in C a pointer and then a length) and a place for the length filled (a pointer); no two of
// its slices may overlap. Nothing is asked of what they hold: every call is answered, and room beyond what it writes stays as it was. The
// answer is 0 or the refusal, and a refused call changes nothing.
//
//   fluturenc_sensor_length()                            the bytes of a sensor's state: 130
//   fluturenc_sensor_reset(sensor)                       a fresh sensor, all 0: 12
//   fluturenc_sensor_message(sensor, message)            one message, checked against the state: 11, 24, 25, 26, 27, 28
//   fluturenc_messages(pairs, messages, written)         a message for each pair of index and value: 24, 28, 12
//
// A sensor's state is moved and copied as bytes: 128 registers, the current index, and 1 where the increment flag is set, else 0.
//
// Crate fluturenc_two_wire_c exports these functions under their names, for C and Rust.

#![tactic(auto)]

ghost use Rattle.std.specs.Prelude.{◌≡◌, ◌≤◌, length};
ghost use Rattle.exported_call.specs.LentCall.{StateGives, WriteGives};
ghost use Rattle.two_wire_write.specs.Writing.{write_of};
ghost use Rattle.fluturenc_two_wire.specs.SensorBytes.{sensor_length, with_sensor, sensor_in, holds_sensor, reset_call, message_call};

use refusal::Refusal;
use two_wire::Sensor;

// The places of index and flag among a sensor's bytes, and how many there are.
const INDEX: usize = 128;

const FLAG: usize = 129;

const LENGTH: usize = 130;

// The bytes of a sensor's state.
pub fn fluturenc_sensor_length() -> usize
    ensures { result ≡ sensor_length }
{
    LENGTH
}

// Puts a fresh sensor into the state. Refused: 12.
#[tactic(auto, unfolding(crate::specs::SensorBytes::reset_call))]
pub fn fluturenc_sensor_reset(sensor: &mut [u8]) -> u8
    ensures { StateGives (reset_call sensor.old) result sensor.new }
{
    if sensor.len() < LENGTH {
        return Refusal::NO_ROOM.0;
    }
    let s = Sensor::new();
    store(s, sensor);
    0
}

// Takes one message, the list of its acknowledged bytes. Refused: 11 the bytes hold no sensor, then 24, 25, 26, 27, 28 as crate two_wire
// has them, in this order.
#[tactic(auto, unfolding(crate::specs::SensorBytes::message_call))]
pub fn fluturenc_sensor_message(sensor: &mut [u8], message: &[u8]) -> u8
    ensures { StateGives (message_call sensor.old message.now) result sensor.new }
{
    if holds_sensor(sensor) {
        let s = sensor_in(sensor);
        let seen = s.read(message);
        let next = seen.sensor;
        let answer = seen.answer;
        match answer {
            Ok(()) => {
                store(next, sensor);
                return 0;
            }
            Err(refusal) => {
                return refusal.0;
            }
        }
    }
    Refusal::BAD_STATE.0
}

// Writes a message for each pair, index and value, of the list. Refused: 24 a list that ends within a pair, 28 an index above 127, 12 room,
// in this order.
pub fn fluturenc_messages(pairs: &[u8], messages: &mut [u8], written: &mut usize) -> u8
    ensures { WriteGives (write_of pairs.now (length messages.old)) result written.new messages.old messages.new }
{
    let filled = two_wire_write::write(pairs, messages);
    exported_call::number_written(filled, written)
}

// Whether the bytes hold a sensor: their length, an index up to 127, and a flag.
#[tactic(auto, unfolding(crate::specs::SensorBytes::holds_sensor))]
fn holds_sensor(sensor: &[u8]) -> bool
    ensures { result ≡ holds_sensor sensor.now }
{
    sensor.len() >= LENGTH && sensor[INDEX] <= two_wire::LAST_INDEX && sensor[FLAG] <= 1
}

#[tactic(auto, unfolding(crate::specs::SensorBytes::sensor_in))]
fn sensor_in(sensor: &[u8]) -> Sensor
    requires { sensor_length ≤ length sensor.now }
    ensures { result ≡ sensor_in sensor.now }
{
    let mut registers = [0u8; 128];
    registers.copy_from_slice(&sensor[..INDEX]);
    Sensor {
        registers,
        index: sensor[INDEX],
        increment: sensor[FLAG] == 1,
    }
}

// Puts a sensor into the state.
#[tactic(auto, unfolding(crate::specs::SensorBytes::with_sensor))]
fn store(s: Sensor, sensor: &mut [u8])
    requires { sensor_length ≤ length sensor.old }
    ensures { sensor.new ≡ with_sensor s sensor.old }
{
    let registers = s.registers;
    sensor[..INDEX].copy_from_slice(&registers);
    sensor[INDEX] = s.index;
    sensor[FLAG] = exported_call::bit(s.increment);
}
