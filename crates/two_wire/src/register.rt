// Registers by name, of the VV5404 and VV6404 (004, Table 8), and of the VV5300 (000, 'The programmers model'), whose fine and coarse exposure are
// of one byte each, at the index of the low byte here.

// Setup registers, of bits with their own functions each.
pub const SETUP0: u8 = 16;

pub const SETUP1: u8 = 17;

pub const SETUP2: u8 = 18;

// Of the VV5300 alone.
pub const SETUP3: u8 = 19;

pub const SETUP4: u8 = 20;

// Of the VV5404 and VV6404 alone.
pub const SETUP5: u8 = 21;

// Fine exposure, in pixel clocks: at most 360 at 30 frames a second, 438 at 25; the sensor clips what is above.
pub const FINE_HIGH: u8 = 32;

pub const FINE_LOW: u8 = 33;

// Coarse exposure, in lines: at most 302.
pub const COARSE_HIGH: u8 = 34;

pub const COARSE_LOW: u8 = 35;

// Gain code: 0, 1, 3 or 7 for a gain of 1, 2, 4 or 8; the VV5300 has others too.
pub const GAIN: u8 = 36;

// Clock divisor code: 0 to 3 for a pixel clock of a half, a 4th, an 8th or a 16th of the input clock.
pub const CLOCK_DIVISOR: u8 = 37;
