// What C and Rust call of crate fluturenc_two_wire: two-wire messages.
//
// Each function is that crate's own of the same name, with the same clauses. In C a slice is a pointer and then a length, and a `&mut` of a
// number a pointer; no two slices of a call may overlap. For C: c/fluturenc.h.

#![tactic(auto)]

ghost use Rattle.std.specs.Prelude.{◌≡◌, length};
ghost use Rattle.exported_call.specs.LentCall.{StateGives, WriteGives};
ghost use Rattle.two_wire_write.specs.Writing.{write_of};
ghost use Rattle.fluturenc_two_wire.specs.SensorBytes.{sensor_length, reset_call, message_call};

// The bytes of a sensor's state.
#[unsafe(no_mangle)]
pub extern "C" fn fluturenc_sensor_length() -> usize
    ensures { result ≡ sensor_length }
{
    fluturenc_two_wire::fluturenc_sensor_length()
}

// Puts a fresh sensor into the state. Refused: 12.
#[unsafe(no_mangle)]
pub extern "C" fn fluturenc_sensor_reset(sensor: &mut [u8]) -> u8
    ensures { StateGives (reset_call sensor.old) result sensor.new }
{
    fluturenc_two_wire::fluturenc_sensor_reset(sensor)
}

// Takes one message, the list of its acknowledged bytes. Refused: 11 the bytes hold no sensor, then 24, 25, 26, 27, 28 as crate two_wire
// has them, in this order.
#[unsafe(no_mangle)]
pub extern "C" fn fluturenc_sensor_message(sensor: &mut [u8], message: &[u8]) -> u8
    ensures { StateGives (message_call sensor.old message.now) result sensor.new }
{
    fluturenc_two_wire::fluturenc_sensor_message(sensor, message)
}

// Writes a message for each pair, index and value, of the list. Refused: 24 a list that ends within a pair, 28 an index above 127, 12 room,
// in this order.
#[unsafe(no_mangle)]
pub extern "C" fn fluturenc_messages(pairs: &[u8], messages: &mut [u8], written: &mut usize) -> u8
    ensures { WriteGives (write_of pairs.now (length messages.old)) result written.new messages.old messages.new }
{
    fluturenc_two_wire::fluturenc_messages(pairs, messages, written)
}
