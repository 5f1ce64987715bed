// The body reader of 01 by value: a position in a body, which stands beside it as a parameter.
// A position may be any number; past the end of the body nothing is left.
ghost use Rattle.std.specs.Prelude.{◌≡◌, ◌-◌, ◌≤◌, length, drop};
ghost use Rattle.pgs_cursor.specs.Cursor.{taken, taken_at};

use pgs_base::number::number_at;
use pgs_base::refusal::Refusal;

// Stays beside `BodyReader` of pgs_body_reader, which holds one: what a read promises is proved here, once, of numbers and a list, and the
// reader adds only that it keeps its body.
#[derive(Clone, Copy, Debug, Default, PartialEq, Eq)]
pub struct BodyCursor {
    pub pos: usize,
}

impl BodyCursor {
    pub fn new() -> Self
        ensures { result.pos ≡ 0 }
    {
        BodyCursor { pos: 0 }
    }

    // How many bytes are left.
    pub fn remaining(self, body: &[u8]) -> usize
        ensures { result ≡ length body.now - self.pos }
    {
        body.len().saturating_sub(self.pos)
    }

    // A number of W bytes with the cursor just after it, or why there is none.
    fn number<const W: usize>(self, body: &[u8]) -> Result<(u32, BodyCursor), Refusal>
        requires { W ≤ 4 }
        ensures { taken result ≡ taken_at W self.pos body.now }
    {
        if self.remaining(body) < W {
            return Err(Refusal::FieldPastEnd);
        }
        let pos = self.pos;
        Ok((number_at::<W>(body, pos), BodyCursor { pos: pos + W }))
    }

    pub fn u8(self, body: &[u8]) -> Result<(u32, BodyCursor), Refusal>
        ensures { taken result ≡ taken_at 1 self.pos body.now }
    {
        self.number::<1>(body)
    }

    pub fn u16(self, body: &[u8]) -> Result<(u32, BodyCursor), Refusal>
        ensures { taken result ≡ taken_at 2 self.pos body.now }
    {
        self.number::<2>(body)
    }

    pub fn u24(self, body: &[u8]) -> Result<(u32, BodyCursor), Refusal>
        ensures { taken result ≡ taken_at 3 self.pos body.now }
    {
        self.number::<3>(body)
    }

    // The rest of the body: the empty part where the position is past the end.
    pub fn rest<'a>(self, body: &'a [u8]) -> &'a [u8]
        ensures { result.now ≡ drop self.pos body.now }
    {
        body.get(self.pos..).unwrap_or(&[])
    }
}
