// The fixed numbers of a packet's layout: the ids under the names that the Rust gives them in its reader, and the sizes of
// its parts.
ghost use Rattle.std.specs.Prelude.{◌≡◌};
ghost use Rattle.values.specs.Code.{layout_constants, layout_sizes};

#[derive(Clone, Copy)]
pub struct Packet {}

impl Packet {
    pub const MIN_PACKET_LEN: usize = 11;

    pub const TIME_CODE_ID: u8 = 0x71;

    pub const CC_DATA_ID: u8 = 0x72;

    pub const SVC_INFO_ID: u8 = 0x73;

    pub const CDP_FOOTER_ID: u8 = 0x74;

    // The bytes in front of the sections.
    pub const HEADER_LEN: usize = 7;

    // An id byte and the four bytes of the time.
    pub const TIME_CODE_LEN: usize = 5;

    // The two bytes that captions, services and a future section begin with.
    pub const SECTION_HEAD_LEN: usize = 2;

    pub const TRIPLET_LEN: usize = 3;

    // An entry's header byte and its six bytes.
    pub const SECTION_ENTRY_LEN: usize = 7;

    pub const FOOTER_LEN: usize = 4;

    // Rule 1: room for the most captions that a packet can have, and the two bytes in front of them.
    pub const CAPTION_ROOM: usize = 95;

    // The most captions that a packet can have: 31 triplets.
    pub const CAPTION_RUN: usize = 93;

    // Nothing calls these two: their contracts hold every constant above to the rules.
    fn held() -> [usize; 5]
        ensures { result ≡ layout_constants }
    {
        [
            Self::MIN_PACKET_LEN,
            Self::TIME_CODE_ID as usize,
            Self::CC_DATA_ID as usize,
            Self::SVC_INFO_ID as usize,
            Self::CDP_FOOTER_ID as usize,
        ]
    }

    fn held_sizes() -> [usize; 8]
        ensures { result ≡ layout_sizes }
    {
        [
            Self::HEADER_LEN,
            Self::TIME_CODE_LEN,
            Self::SECTION_HEAD_LEN,
            Self::TRIPLET_LEN,
            Self::SECTION_ENTRY_LEN,
            Self::FOOTER_LEN,
            Self::CAPTION_ROOM,
            Self::CAPTION_RUN,
        ]
    }
}
