// Numbers stored at a place. A byte whose place is past the end is left out.
// Stays by output and place: a struct of both would hold the lent output, and each call would have to promise that it holds it still; and
// `&mut out[at..]` would have to be tested before each call, since a head is also stored in an output that ends before the place.
ghost use Rattle.std.specs.Prelude.{◌≡◌, length};
ghost use Rattle.std.proofs.lemmas.List.Edits.{sets};
ghost use Rattle.pgs_base.specs.Bytes.{bytes_of};

// All of these bytes, which are as many as there is room for.
// It is called, and does not stand in line: of a caller's array, a copy in line would be one by `memcpy`, which the archive for C would then need
// besides `memmove`.
#[inline(never)]
fn copy(to: &mut [u8], bytes: &[u8])
    requires { length to.old ≡ length bytes.now }
    ensures { to.new ≡ bytes.now }
{
    to.copy_from_slice(bytes);
}

// The bytes from a place on, as many as there is room for.
pub fn put_bytes(out: &mut [u8], at: usize, bytes: &[u8])
    ensures { out.new ≡ sets out.old at bytes.now }
{
    // Nothing to store is no call: an END has neither numbers nor data.
    if bytes.is_empty() {
        return;
    }
    if at < out.len() {
        let n = bytes.len().min(out.len() - at);
        copy(&mut out[at..at + n], &bytes[..n]);
    }
}

// The same of an array, which is stored at once where there is room for all of it.
// Stays beside `put_bytes`, which copies a length that only the run knows: by it alone, writing 252 windows takes 0.0071 ms, not 0.0020.
#[inline(always)]
pub fn put_array<const N: usize>(out: &mut [u8], at: usize, bytes: &[u8; N])
    ensures { out.new ≡ sets out.old at bytes.now }
{
    if at < out.len() {
        if N <= out.len() - at {
            out[at..at + N].copy_from_slice(bytes);
            return;
        }
    }
    put_bytes(out, at, bytes);
}

// The largest number of one byte, among cells of two.
pub const ONE_BYTE: u16 = u8::MAX as u16;

pub fn put_u8(out: &mut [u8], at: usize, n: u8)
    ensures { out.new ≡ sets out.old at (bytes_of 1 n) }
{
    put_array(out, at, &[n]);
}

pub fn put_u16(out: &mut [u8], at: usize, n: u16)
    ensures { out.new ≡ sets out.old at (bytes_of 2 n) }
{
    put_array(out, at, &u16::to_be_bytes(n));
}

// The low 24 bits; the writers refuse a larger number first.
pub fn put_u24(out: &mut [u8], at: usize, n: u32)
    ensures { out.new ≡ sets out.old at (bytes_of 3 n) }
{
    let [_, high, middle, low] = u32::to_be_bytes(n);
    put_array(out, at, &[high, middle, low]);
}

pub fn put_u32(out: &mut [u8], at: usize, n: u32)
    ensures { out.new ≡ sets out.old at (bytes_of 4 n) }
{
    put_array(out, at, &u32::to_be_bytes(n));
}
