// A picture as a binary PGM file (paper 02, A1; Netpbm's "P5").
//
// A picture is the visible lines of a complete profile 0 frame, top to bottom and end to end: 292 rows of 356 pixels with borders on, 288
// with borders off. Its file is a header of 15 bytes, `P5`, newline, `356 292` or `356 288`, newline, `255`, newline, then the pixels.
// `write` makes the file of rows, `read` the rows of a file; each into a lent buffer, and the answer is the length used. Refused, in this
// order, and then nothing is written: 20 header (reading only), 21 length of rows or file, 22 pixel not 01 to FE, 12 room. Cost: linear.

#![tactic(auto)]

ghost use Rattle.std.specs.Prelude.{◌≡◌, ◌≤◌, ◌%◌, length};
ghost use Rattle.text.specs.Text.{digit};
ghost use Rattle.lent_buffer.specs.Filled.{Gives};
ghost use Rattle.picture_file.specs.PictureFile.{height, size, header, pixels, starts, write_as, write_of, read_as, read_of};

use lent_buffer::Filled;
use picture_file::Format;
use profile::Profile;
use refusal::Refusal;

// The rows of a picture with borders on, and off.
const HEIGHT_ON: usize = 292;

const HEIGHT_OFF: usize = 288;

// The greatest value of a pixel, as the header gives it.
const MAXVAL: usize = 255;

// The length of a file's header.
const HEADER: usize = 15;

// The most pixels of a picture, and the longest file: what a caller's buffers need.
pub const MOST_PIXELS: usize = HEIGHT_ON * Profile::WIDTH;

pub const LONGEST_FILE: usize = HEADER + MOST_PIXELS;

// The file of these rows.
pub fn write(rows: &[u8], file: &mut [u8]) -> Filled
    ensures { Gives (write_of rows.now (length file.old)) result file.old file.new }
{
    if rows.len() == size(Format::Bordered) {
        return write_as(Format::Bordered, rows, file);
    }
    if rows.len() == size(Format::Plain) {
        return write_as(Format::Plain, rows, file);
    }
    Err(Refusal::WRONG_PICTURE_LENGTH)
}

// The rows of this file.
pub fn read(file: &[u8], rows: &mut [u8]) -> Filled
    ensures { Gives (read_of file.now (length rows.old)) result rows.old rows.new }
{
    if file.len() < HEADER {
        return Err(Refusal::BAD_HEADER);
    }
    let body = &file[HEADER..];
    if heads(Format::Bordered, file) {
        return read_as(Format::Bordered, body, rows);
    }
    if heads(Format::Plain, file) {
        return read_as(Format::Plain, body, rows);
    }
    Err(Refusal::BAD_HEADER)
}

// The rows of a picture.
fn height(format: Format) -> usize
    ensures { result ≡ height format }
{
    match format {
        Format::Bordered => HEIGHT_ON,
        Format::Plain => HEIGHT_OFF,
    }
}

// The pixels of a picture.
fn size(format: Format) -> usize
    ensures { result ≡ size format }
{
    height(format) * Profile::WIDTH
}

// `P5`, newline, width and height, newline, the greatest value, newline.
fn header(format: Format) -> [u8; HEADER]
    ensures { result ≡ header format }
{
    let width = Profile::WIDTH;
    let height = height(format);
    [
        b'P',
        b'5',
        b'\n',
        digit(width / 100),
        digit(width / 10),
        digit(width),
        b' ',
        digit(height / 100),
        digit(height / 10),
        digit(height),
        b'\n',
        digit(MAXVAL / 100),
        digit(MAXVAL / 10),
        digit(MAXVAL),
        b'\n',
    ]
}

// Whether a file starts with this header.
fn heads(format: Format, file: &[u8]) -> bool
    ensures { result ≡ starts (header format) file.now }
{
    file.starts_with(&header(format))
}

// The last decimal digit of a number, as a character.
fn digit(n: usize) -> u8
    ensures { result ≡ digit (n % 10) }
{
    b'0' + (n % 10) as u8
}

// Rows of a picture's size into its file.
fn write_as(format: Format, rows: &[u8], file: &mut [u8]) -> Filled
    ensures { Gives (write_as format rows.now (length file.old)) result file.old file.new }
{
    if all_pixels(rows) {
        let length = HEADER + rows.len();
        if file.len() < length {
            return Err(Refusal::NO_ROOM);
        }
        file[..HEADER].copy_from_slice(&header(format));
        file[HEADER..length].copy_from_slice(rows);
        return Ok(length);
    }
    Err(Refusal::BAD_PIXEL)
}

// What follows a file's header, into rows.
fn read_as(format: Format, body: &[u8], rows: &mut [u8]) -> Filled
    ensures { Gives (read_as format body.now (length rows.old)) result rows.old rows.new }
{
    if body.len() != size(format) {
        return Err(Refusal::WRONG_PICTURE_LENGTH);
    }
    if all_pixels(body) {
        if rows.len() < body.len() {
            return Err(Refusal::NO_ROOM);
        }
        rows[..body.len()].copy_from_slice(body);
        return Ok(body.len());
    }
    Err(Refusal::BAD_PIXEL)
}

// Whether each byte is a pixel, 01 to FE.
fn all_pixels(bytes: &[u8]) -> bool
    ensures { result ≡ pixels bytes.now }
{
    bytes.iter().all(|b| profile::is_pixel(*b))
}
