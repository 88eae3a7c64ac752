// A lift's image: its size, and where the lift's part of a board is.
ghost use Rattle.std.specs.Prelude.{◌≡◌};
ghost use Rattle.rules.specs.Types.{part_of};

// Where an image starts on a board.
#[derive(Clone, Copy, PartialEq, Eq, Debug)]
pub struct Image {
    pub at: usize,
}

impl Image {
    pub const SIZE: usize = 202;

    // Where the active bits, the history and the variables start.
    pub const ACTIVE: usize = 2;

    pub const HISTORY: usize = 10;

    pub const VARIABLES: usize = 74;

    // The bytes of a variable.
    pub const VALUE: usize = 4;

    pub const LAST_LIFT: u32 = 63;

    // A lift's part of a board of so many bytes, where it has that part.
    pub fn of_lift(lift: u32, bytes: usize) -> Option<Image>
        ensures { result ≡ part_of lift bytes }
    {
        if Image::LAST_LIFT < lift {
            return None;
        }
        let k = lift as usize;
        let at = Image::SIZE * k;
        if bytes < at + Image::SIZE {
            return None;
        }
        Some(Image { at })
    }
}
