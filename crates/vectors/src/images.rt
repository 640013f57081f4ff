// The longest image, made byte by byte (01, "Image": 51,815 bytes).
use crate::output::{Told, write_line};
use policy::State;
use std::io;
use std::io::Write;

// The room of an image, a byte more than the longest. One is lent to all cases, since each of its own is as much stack again.
const ROOM: usize = 51816;

// How many bytes the longest image has; where its role count and its file count stand.
const LONGEST_IMAGE: usize = 51815;

const ROLE_COUNT: usize = 69;

const FILE_COUNT: usize = 20454;

// Mark, version and n = 64.
const HEAD: [u8; 6] = *b"SPT\x01\x00\x40";

// A length byte and 48 bytes in order: 13 securons and two ranges under 14 AND.
const EXPRESSION: [u8; 49] = *b"\x30\
    \x03\x03\x03\x03\x03\x03\x03\x03\x03\x03\x03\x03\x03\x03\
    \x02\x3f\x00\x3f\x02\x00\x3f\x3f\x01\x00\x01\x01\x01\x3e\x01\x3f\
    \x01\x05\x01\x05\x01\x05\x01\x05\x01\x05\x01\x05\x01\x05\x01\x05\x01\x05";

fn fresh<W: Write>(out: &mut W, name: &[u8], image: &[u8]) -> io::Result<()> {
    let loaded = image::load(State::fresh(), image);
    write_line(out, name, &Told::Answer(loaded.answer))
}

// Byte k of the longest image: each securon's parent is the one before it, so depth 63; 32 roles and 32 files, every expression of 48 bytes.
fn full_byte(k: usize) -> u8 {
    match k {
        ..6 => HEAD[k],
        6..ROLE_COUNT => (k - 6) as u8,
        ROLE_COUNT | FILE_COUNT => 32,
        ..FILE_COUNT => EXPRESSION[(k - ROLE_COUNT - 1) % 49],
        _ => EXPRESSION[(k - FILE_COUNT - 1) % 49],
    }
}

// The longest image, and a byte more.
fn fill(image: &mut [u8; ROOM]) {
    for (k, x) in image.iter_mut().enumerate() {
        *x = full_byte(k);
    }
}

// The first n bytes.
fn first(image: &[u8], n: usize) -> &[u8] {
    image.get(..n).unwrap_or(image)
}

// The longest image, and that with a byte less or a byte more.
fn longest<W: Write>(out: &mut W, image: &mut [u8; ROOM]) -> io::Result<()> {
    fill(image);
    fresh(out, b"the longest image", first(image, LONGEST_IMAGE))?;
    fresh(out, b"the longest, a byte less", first(image, 51814))?;
    fresh(out, b"the longest, a byte more", image)
}

// The longest image with a wrong byte far behind; then another before it, which decides.
fn longest_wrong_late<W: Write>(out: &mut W, image: &mut [u8; ROOM]) -> io::Result<()> {
    fill(image);
    image[51814] = 64;
    fresh(
        out,
        b"the longest, its last byte wrong",
        first(image, LONGEST_IMAGE),
    )?;
    image[51813] = 3;
    image[51814] = 1;
    fresh(
        out,
        b"the longest, not whole at its end",
        first(image, LONGEST_IMAGE),
    )?;
    image[51766] = 49;
    fresh(
        out,
        b"the longest, its last length 49",
        first(image, LONGEST_IMAGE),
    )
}

// The longest image with a wrong count or parent.
fn longest_wrong_early<W: Write>(out: &mut W, image: &mut [u8; ROOM]) -> io::Result<()> {
    fill(image);
    image[FILE_COUNT] = 33;
    fresh(out, b"the longest, 33 files", first(image, LONGEST_IMAGE))?;
    image[ROLE_COUNT] = 33;
    fresh(out, b"the longest, 33 roles", first(image, LONGEST_IMAGE))?;
    image[68] = 63;
    fresh(
        out,
        b"the longest, its last parent 63",
        first(image, LONGEST_IMAGE),
    )
}

pub(crate) fn run<W: Write>(out: &mut W) -> io::Result<()> {
    let mut image = [0u8; ROOM];
    longest(out, &mut image)?;
    longest_wrong_late(out, &mut image)?;
    longest_wrong_early(out, &mut image)
}
