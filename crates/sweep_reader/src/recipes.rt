// The packets of the sweep, each a row of numbers.
ghost use Rattle.std.specs.Prelude.{◌≡◌};
ghost use Rattle.sweep_reader.specs.Recipes as Recipes;

// All that a packet is made from. Its number makes its hours, captions and languages its own.
#[derive(Clone, Copy)]
pub struct Recipe {
    pub number: u8,
    pub rate: u8,
    pub flags: u8,
    pub sequence: u16,
    pub captions: u8,
    pub services: u8,
    pub futures: u8,
    pub behind: u8,
}

impl Recipe {
    // Byte 3, byte 4, sequence, then how many captions, services, future sections and bytes behind the footer.
    #[tactic(auto, unfolding(crate::specs::Recipes::recipe_of))]
    pub fn new(number: u8) -> Self
        ensures { result ≡ Recipes.recipe_of number }
    {
        match number {
            // Read before each of the others.
            0 => Self::row(0, 0x8F, 0xBF, 0x1234, 0, 4, 0, 0),
            // Nothing; a time code; captions, none and twenty; services.
            1 => Self::row(1, 0x1F, 0x03, 0x0000, 0, 0, 0, 0),
            2 => Self::row(2, 0x2F, 0x83, 0x00FF, 0, 0, 0, 0),
            3 => Self::row(3, 0x3F, 0x43, 0x0100, 0, 0, 0, 0),
            4 => Self::row(4, 0x4F, 0x43, 0x4321, 20, 0, 0, 0),
            5 => Self::row(5, 0x5F, 0x37, 0x8000, 0, 3, 0, 0),
            // All of these, few and as many as there can be.
            6 => Self::row(6, 0x6F, 0xEB, 0x7FFF, 2, 2, 0, 0),
            7 => Self::row(7, 0x7F, 0xFF, 0xFEDC, 31, 15, 0, 0),
            // Two future sections, whose content could be the footer.
            8 => Self::row(8, 0x8F, 0x43, 0x7474, 2, 0, 2, 0),
            // Bytes behind the footer.
            9 => Self::row(9, 0x1F, 0x83, 0x0A0B, 0, 0, 0, 3),
            // All sections and a future one, and the bits that are not read clear.
            _ => Self::row(10, 0x30, 0xE4, 0xFFFF, 1, 2, 1, 0),
        }
    }

    fn row(
        number: u8,
        rate: u8,
        flags: u8,
        sequence: u16,
        captions: u8,
        services: u8,
        futures: u8,
        behind: u8,
    ) -> Self
        ensures { result ≡ Recipes.recipe number rate flags sequence captions services futures behind }
    {
        Self {
            number,
            rate,
            flags,
            sequence,
            captions,
            services,
            futures,
            behind,
        }
    }
}
