// The body reader of 01 in the form that it names: a struct that holds the body and its position.
#![tactic(auto)]

ghost use Rattle.std.specs.Prelude.{◌≡◌};
ghost use Rattle.pgs_base.specs.Outcome.{outcome};
ghost use Rattle.pgs_cursor.specs.Cursor.{taken};
ghost use Rattle.pgs_body_reader.specs.Reader.{number_or, place_or, at_start, left_of, Reads, Rests};

use pgs_base::refusal::Refusal;
use pgs_cursor::cursor::BodyCursor;

#[derive(Clone, Copy, Debug)]
pub struct BodyReader<'a> {
    buf: &'a [u8],
    cursor: BodyCursor,
}

impl<'a> BodyReader<'a> {
    pub fn new(buf: &'a [u8]) -> Self
        ensures { result ≡ at_start buf.entry }
    {
        BodyReader {
            buf,
            cursor: BodyCursor::new(),
        }
    }

    // How many bytes are left.
    pub fn remaining(&self) -> usize
        ensures { result ≡ left_of self.now }
    {
        self.cursor.remaining(self.buf)
    }

    // The number that the cursor read, after which the reader goes on. A read that is refused stays where it is.
    fn step(&mut self, read: Result<(u32, BodyCursor), Refusal>) -> Result<u32, Refusal>
        ensures kept { self.new.buf ≡ self.old.buf }
        ensures answered { outcome result ≡ number_or (taken read) }
        ensures moved { self.new.cursor.pos ≡ place_or self.old.cursor.pos (taken read) }
    {
        let (number, next) = read?;
        self.cursor = next;
        Ok(number)
    }

    pub fn u8(&mut self) -> Result<u32, Refusal>
        ensures { Reads 1 self.old self.new result }
    {
        self.step(self.cursor.u8(self.buf))
    }

    pub fn u16(&mut self) -> Result<u32, Refusal>
        ensures { Reads 2 self.old self.new result }
    {
        self.step(self.cursor.u16(self.buf))
    }

    pub fn u24(&mut self) -> Result<u32, Refusal>
        ensures { Reads 3 self.old self.new result }
    {
        self.step(self.cursor.u24(self.buf))
    }

    // The rest of the body; nothing is left after it.
    pub fn rest(&mut self) -> &'a [u8]
        ensures { Rests self.old self.new result.now }
    {
        let rest = self.cursor.rest(self.buf);
        self.cursor.pos = self.buf.len();
        rest
    }
}
