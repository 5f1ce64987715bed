// The place of a fragment in its object, as a view of the fragment flag's byte.
ghost use Rattle.std.specs.Prelude.{◌≡◌};
ghost use Rattle.pgs_views.specs.Fragments.{fragment_of, raw_fragment, is_first, is_last};

#[derive(Clone, Copy, Debug, PartialEq, Eq)]
pub enum FragmentFlag {
    First,
    Last,
    FirstAndLast,
    Other(u8),
}

impl From<u8> for FragmentFlag {
    ghost from_gives = { λ v flag. flag ≡ fragment_of v };

    fn from(v: u8) -> Self {
        match v {
            0x80 => FragmentFlag::First,
            0x40 => FragmentFlag::Last,
            0xC0 => FragmentFlag::FirstAndLast,
            _ => FragmentFlag::Other(v),
        }
    }
}

impl From<FragmentFlag> for u8 {
    ghost from_gives = { λ flag v. v ≡ raw_fragment flag };

    fn from(flag: FragmentFlag) -> Self {
        match flag {
            FragmentFlag::First => 0x80,
            FragmentFlag::Last => 0x40,
            FragmentFlag::FirstAndLast => 0xC0,
            FragmentFlag::Other(v) => v,
        }
    }
}

impl FragmentFlag {
    // Whether the fragment opens its object, and so has the dimensions.
    pub fn is_first(self) -> bool
        ensures { result ≡ is_first self }
    {
        matches!(self, FragmentFlag::First | FragmentFlag::FirstAndLast)
    }

    // Whether the fragment closes its object.
    pub fn is_last(self) -> bool
        ensures { result ≡ is_last self }
    {
        matches!(self, FragmentFlag::Last | FragmentFlag::FirstAndLast)
    }
}
