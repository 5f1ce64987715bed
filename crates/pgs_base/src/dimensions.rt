// How many pixels an object or a plane has across and down.
ghost use Rattle.std.specs.Prelude.{◌≡◌, ◌*◌};

#[derive(Clone, Copy, Debug, Default, PartialEq, Eq)]
pub struct Dimensions {
    pub width: u16,
    pub height: u16,
}

impl Dimensions {
    // How many pixels there are.
    pub fn area(self) -> usize
        ensures { result ≡ self.width * self.height }
    {
        usize::from(self.width) * usize::from(self.height)
    }
}
