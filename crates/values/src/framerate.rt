// Rule 3: the eight rates.
ghost use Rattle.std.specs.Prelude.{◌≡◌};
ghost use Rattle.values.specs.Rate.{from_id, known, row};

#[derive(Clone, Copy, PartialEq, Eq)]
pub struct Framerate {
    pub id: u8,
    pub numer: u32,
    pub denom: u32,
}

impl Framerate {
    // Zeros, where there is no rate.
    pub const NONE: Self = Self {
        id: 0,
        numer: 0,
        denom: 0,
    };

    // Nothing calls this: its contract holds the constant above.
    fn held() -> Self
        ensures { result ≡ row 0 0 0 }
    {
        Self::NONE
    }

    // The rate with this id, or none.
    pub fn from_id(id: u8) -> Option<Self>
        ensures { result ≡ from_id id }
    {
        match id {
            1 => Some(Self::row(1, 24000, 1001)),
            2 => Some(Self::row(2, 24, 1)),
            3 => Some(Self::row(3, 25, 1)),
            4 => Some(Self::row(4, 30000, 1001)),
            5 => Some(Self::row(5, 30, 1)),
            6 => Some(Self::row(6, 50, 1)),
            7 => Some(Self::row(7, 60000, 1001)),
            8 => Some(Self::row(8, 60, 1)),
            _ => None,
        }
    }

    fn row(id: u8, numer: u32, denom: u32) -> Self
        ensures { result ≡ row id numer denom }
    {
        Self { id, numer, denom }
    }

    // Whether this is one of the eight: its id and both its numbers.
    pub fn is_known(self) -> bool
        ensures { result ≡ known self }
    {
        Self::from_id(self.id) == Some(self)
    }
}
