// Numbers of several bytes, the highest byte first.
ghost use Rattle.std.specs.Prelude.{◌≡◌, ◌%◌, ◌^◌, ◌<◌, ◌≤◌};
ghost use Rattle.pgs_base.specs.Bytes.{big, num};

// The number of all the bytes; of more than four, its lowest 32 bits.
fn number_of_bytes(bytes: &[u8]) -> u32
    ensures { result ≡ big bytes.now % 2 ^ 32 }
{
    bytes
        .iter()
        .fold(0, |number, byte| number << 8 | u32::from(*byte))
}

// The number of the W bytes from a place on; where the bytes end before, of those that are there.
pub fn number_at<const W: usize>(bytes: &[u8], at: usize) -> u32
    ensures value { result ≡ num W at bytes.now % 2 ^ 32 }
    ensures whole { W ≤ 4 → (result ≡ num W at bytes.now) × (result < 256 ^ W) }
{
    let rest = bytes.get(at..).unwrap_or(&[]);
    // Stays a match: by `rest.get(..W).unwrap_or(rest)` the bytes are read in a loop, and 800 million fields take 1.8 s, not 0.8.
    match rest.get(..W) {
        Some(field) => number_of_bytes(field),
        None => number_of_bytes(rest),
    }
}
