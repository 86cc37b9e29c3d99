// Writing to standard output: texts, numbers in decimal, and refusals. What is written no contract can say: programs are run and compared.
#![tactic(auto)]

use refusals::Refusal;
use std::io;

// Standard output, and how writing to it went: after the first error nothing more is written.
#[derive(Drop)]
pub struct Output {
    stream: io::Stdout,
    written: io::Result<()>,
}

impl Output {
    // Standard output, with no error met yet.
    pub fn new(stream: io::Stdout) -> Output {
        Output {
            stream,
            written: Ok(()),
        }
    }

    // The end of writing: the first error, if one was met.
    pub fn finish(self) -> io::Result<()> {
        self.written
    }
}

// Writes a text as it is.
pub fn text(out: &mut Output, s: &[u8]) {
    if out.written.is_ok() {
        out.written = out.stream.write_all(s);
    }
}

// Writes a number in decimal: by `decimals`, whose contract says which bytes these are, not by `Display`.
pub fn number(out: &mut Output, x: u64) {
    let mut digits = [0u8; 20];
    let size = decimals::write_decimal(x, &mut digits);
    text(out, &digits[..size]);
}

// Writes a refusal: its number and its place.
pub fn refusal(out: &mut Output, r: Refusal) {
    text(out, b"refused ");
    number(out, r.cause.number());
    text(out, b" ");
    number(out, r.place);
}

// Writes a number, with a space before it.
pub fn next(out: &mut Output, x: u64) {
    text(out, b" ");
    number(out, x);
}

// Writes cells, each with a space before it.
pub fn cells(out: &mut Output, cells: &[u32]) {
    for &x in cells {
        next(out, u64::from(x));
    }
}

// Writes a signed number, with a space before it.
pub fn signed(out: &mut Output, x: i32) {
    if x < 0 {
        text(out, b" -");
    } else {
        text(out, b" ");
    }
    number(out, u64::from(x.unsigned_abs()));
}

// Writes the line of a refusal.
pub fn refused(out: &mut Output, r: Refusal) {
    refusal(out, r);
    text(out, b"\n");
}
