// What C and Rust call of crate fluturenc_picture: pictures, and the order of pixels.
//
// Each function is that crate's own of the same name, with the same clauses. In C a slice is a pointer and then a length, and a `&mut` of a
// number a pointer; no two slices of a call may overlap. For C: c/fluturenc.h.

#![tactic(auto)]

ghost use Rattle.std.specs.Prelude.{length};
ghost use Rattle.exported_call.specs.LentCall.{WriteGives};
ghost use Rattle.picture_file.specs.PictureFile.{write_of, read_of};
ghost use Rattle.pixel_order.specs.PixelOrder.{reorder_of};
ghost use Rattle.pixel_order.specs.declared.Way.TheVariants.{ToPixels, ToBody};

// The file of these rows. Refused: 21 length of the rows, 22 pixel not 01 to FE, 12 room, in this order.
#[unsafe(no_mangle)]
pub extern "C" fn fluturenc_picture_write(rows: &[u8], file: &mut [u8], written: &mut usize) -> u8
    ensures { WriteGives (write_of rows.now (length file.old)) result written.new file.old file.new }
{
    fluturenc_picture::fluturenc_picture_write(rows, file, written)
}

// The rows of this file. Refused: 20 header, 21 length of the file, 22 pixel not 01 to FE, 12 room, in this order.
#[unsafe(no_mangle)]
pub extern "C" fn fluturenc_picture_read(file: &[u8], rows: &mut [u8], written: &mut usize) -> u8
    ensures { WriteGives (read_of file.now (length rows.old)) result written.new rows.old rows.new }
{
    fluturenc_picture::fluturenc_picture_read(file, rows, written)
}

// The pixels of a body, in their order. Refused: 23 not a visible line, 15 length of the body, 12 room, in this order.
#[unsafe(no_mangle)]
pub extern "C" fn fluturenc_to_pixels(
    kind: u8,
    body: &[u8],
    pixels: &mut [u8],
    written: &mut usize,
) -> u8
    ensures { WriteGives (reorder_of ToPixels kind body.now (length pixels.old)) result written.new pixels.old pixels.new }
{
    fluturenc_picture::fluturenc_to_pixels(kind, body, pixels, written)
}

// The body that sends these pixels. Refused: 23 not a visible line, 15 length of the pixels, 12 room, in this order.
#[unsafe(no_mangle)]
pub extern "C" fn fluturenc_to_body(
    kind: u8,
    pixels: &[u8],
    body: &mut [u8],
    written: &mut usize,
) -> u8
    ensures { WriteGives (reorder_of ToBody kind pixels.now (length body.old)) result written.new body.old body.new }
{
    fluturenc_picture::fluturenc_to_body(kind, pixels, body, written)
}
