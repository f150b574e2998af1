// What a capture tool in C or Rust calls: pictures, and the order of pixels, behind numbers and byte slices (paper 02, A1 and A2).
//
// Each exported function takes numbers, slices (in C a pointer and then a length) and a place for the length filled (a pointer); no two of
// its slices may overlap. The answer is 0, and the length in its place; or the refusal, 0 in its place, and nothing is written. Room beyond
// what a call writes stays as it was.
//
//   fluturenc_picture_write(rows, file, written)       the PGM file of a frame's visible rows, end to end: 21, 22, 12
//   fluturenc_picture_read(file, rows, written)        the rows of such a file: 20, 21, 22, 12
//   fluturenc_to_pixels(kind, body, pixels, written)   the pixels of a line whose head sends odd ones first: 23, 15, 12
//   fluturenc_to_body(kind, pixels, body, written)     the body that such a head sends of these pixels: 23, 15, 12
//
// Crate fluturenc_picture_c exports these functions under their names, for C and Rust.

#![tactic(auto)]

ghost use Rattle.std.specs.Prelude.{length};
ghost use Rattle.exported_call.specs.LentCall.{WriteGives};
ghost use Rattle.picture_file.specs.PictureFile.{write_of, read_of};
ghost use Rattle.pixel_order.specs.PixelOrder.{reorder_of};
ghost use Rattle.pixel_order.specs.declared.Way.TheVariants.{ToPixels, ToBody};

// The file of these rows. Refused: 21 length of the rows, 22 pixel not 01 to FE, 12 room, in this order.
pub fn fluturenc_picture_write(rows: &[u8], file: &mut [u8], written: &mut usize) -> u8
    ensures { WriteGives (write_of rows.now (length file.old)) result written.new file.old file.new }
{
    let filled = pgm::write(rows, file);
    exported_call::number_written(filled, written)
}

// The rows of this file. Refused: 20 header, 21 length of the file, 22 pixel not 01 to FE, 12 room, in this order.
pub fn fluturenc_picture_read(file: &[u8], rows: &mut [u8], written: &mut usize) -> u8
    ensures { WriteGives (read_of file.now (length rows.old)) result written.new rows.old rows.new }
{
    let filled = pgm::read(file, rows);
    exported_call::number_written(filled, written)
}

// The pixels of a body, in their order. Refused: 23 not a visible line, 15 length of the body, 12 room, in this order.
pub fn fluturenc_to_pixels(kind: u8, body: &[u8], pixels: &mut [u8], written: &mut usize) -> u8
    ensures { WriteGives (reorder_of ToPixels kind body.now (length pixels.old)) result written.new pixels.old pixels.new }
{
    let filled = pixel_order::to_pixels(kind, body, pixels);
    exported_call::number_written(filled, written)
}

// The body that sends these pixels. Refused: 23 not a visible line, 15 length of the pixels, 12 room, in this order.
pub fn fluturenc_to_body(kind: u8, pixels: &[u8], body: &mut [u8], written: &mut usize) -> u8
    ensures { WriteGives (reorder_of ToBody kind pixels.now (length body.old)) result written.new body.old body.new }
{
    let filled = pixel_order::to_body(kind, pixels, body);
    exported_call::number_written(filled, written)
}
