ghost use Rattle.std.specs.Prelude.{◌≤◌, length};

use av_base::Part;
use av_base::line::LF;
use av_base::parts::write_parts;
use std::io;
use std::io::Write;

/// The standard error of a program: each line begins with the program's name. This is the one place that writes the name, so
/// whatever writes lines needs no name of its own.
#[derive(Drop)]
pub struct Prefixed<E> {
    program: &'static str,
    /// Takes bytes as they are.
    pub writer: E,
    // A line was begun and has not ended.
    is_inside: bool,
}

impl<E: Write> Prefixed<E> {
    /// Writes to `writer`, and puts the program's name, a colon and a space before each line. An empty name puts nothing there.
    pub fn new(program: &'static str, writer: E) -> Prefixed<E> {
        Prefixed {
            program,
            writer,
            is_inside: false,
        }
    }

    /// Writes lines to `writer` as they are, for a caller that is no program.
    pub fn plain(writer: E) -> Prefixed<E> {
        Prefixed::new("", writer)
    }

    /// The name that each line begins with.
    pub fn program(&self) -> &'static str {
        self.program
    }

    // Begins a line. Where that fails there is nobody left to tell.
    fn begin(&mut self) {
        if !self.program.is_empty() {
            let name = Part::Text(self.program.as_bytes());
            let _ = write_parts(&mut self.writer, &[name, Part::Text(b": ".as_slice())]);
        }
        self.is_inside = true;
    }
}

impl<E: Write> Write for Prefixed<E> {
    // Takes no more than the rest of a line at a time.
    fn write(&mut self, buf: &[u8]) -> io::Result<usize> {
        if buf.is_empty() {
            return Ok(0);
        }
        if !self.is_inside {
            self.begin();
        }
        let line = first_line(buf);
        let taken = self.writer.write(line)?;
        if taken == line.len() {
            self.is_inside = line.last() != Some(&LF);
        }
        Ok(taken)
    }

    fn flush(&mut self) -> io::Result<()> {
        self.writer.flush()
    }
}

// The bytes up to the first line feed and with it, or all.
fn first_line(bytes: &[u8]) -> &[u8]
    ensures { length result.now ≤ length bytes.now }
{
    match bytes.iter().position(|byte| *byte == LF) {
        Some(place) => &bytes[..place + 1],
        None => bytes,
    }
}
