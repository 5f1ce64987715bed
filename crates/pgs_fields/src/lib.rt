// Fields of 1, 2, 3 and 4 bytes at a place. Of a field that the bytes end within, those that are there count.
#![tactic(auto)]

ghost use Rattle.std.specs.Prelude.{◌≡◌};
ghost use Rattle.pgs_base.specs.Bytes.{num};

use pgs_base::number::number_at;

pub fn u8_at(s: &[u8], at: usize) -> u8
    ensures { result ≡ num 1 at s.now }
{
    number_at::<1>(s, at) as u8
}

pub fn u16_at(s: &[u8], at: usize) -> u16
    ensures { result ≡ num 2 at s.now }
{
    number_at::<2>(s, at) as u16
}

pub fn u24_at(s: &[u8], at: usize) -> u32
    ensures { result ≡ num 3 at s.now }
{
    number_at::<3>(s, at)
}

pub fn u32_at(s: &[u8], at: usize) -> u32
    ensures { result ≡ num 4 at s.now }
{
    number_at::<4>(s, at)
}
