// BT.709 limited-range Y, Cb and Cr to full-range R, G and B. 01, 'Colour'.
ghost use Rattle.std.specs.Prelude.{◌≡◌};
ghost use Rattle.pgs_color.specs.Bytes.{byte_of, clamped_of, rgb_of};
ghost use Rattle.pgs_color.specs.Sums.{chroma, luma, sums_of};

// The three channel sums before clamping, which travel together.
#[derive(Clone, Copy, Debug)]
pub struct ChannelSums {
    pub r: f32,
    pub g: f32,
    pub b: f32,
}

// One opaque colour.
#[derive(Clone, Copy, Debug, PartialEq, Eq)]
pub struct Rgb8 {
    pub r: u8,
    pub g: u8,
    pub b: u8,
}

// What Y adds to each of the three sums.
fn luma(y: u8) -> f32
    ensures { result ≡ luma y }
{
    (f32::from(y) - 16.0) * (255.0 / 219.0)
}

// What Cb or Cr, times its decimal, adds to a sum or takes from it.
fn chroma(decimal: f32, c: u8) -> f32
    ensures { result ≡ chroma decimal c }
{
    decimal * (f32::from(c) - 128.0) * (255.0 / 224.0)
}

// Each operation is one of f32's, in 01's order.
pub fn channel_sums(y: u8, cb: u8, cr: u8) -> ChannelSums
    ensures { result ≡ sums_of y cb cr }
{
    let yf = luma(y);
    ChannelSums {
        r: yf + chroma(1.5748, cr),
        g: yf - chroma(0.1873, cb) - chroma(0.4681, cr),
        b: yf + chroma(1.8556, cb),
    }
}

// The byte of one sum. A NaN fails both tests and gives 0, as the Rust's cast of one does.
fn clamp_channel(v: f32) -> u8
    ensures { result ≡ byte_of v }
{
    if v >= 255.0 {
        255
    } else if v > 0.0 {
        std::num::truncating_f32_to_u64(v + 0.5) as u8
    } else {
        0
    }
}

impl ChannelSums {
    // The bytes of the three sums.
    pub fn clamp(self) -> Rgb8
        ensures { result ≡ clamped_of self }
    {
        Rgb8 {
            r: clamp_channel(self.r),
            g: clamp_channel(self.g),
            b: clamp_channel(self.b),
        }
    }
}

// The colour of Y, Cb and Cr.
// Stays by the three, as `channel_sums`: its parameters are the published Rust's, which C's call has too.
pub fn ycbcr709_to_rgb(y: u8, cb: u8, cr: u8) -> Rgb8
    ensures { result ≡ rgb_of y cb cr }
{
    channel_sums(y, cb, cr).clamp()
}
