// Rule 4: the flag byte. Each constant is a mask with one bit, so that a quotient by it moves the bit down.
ghost use Rattle.std.specs.Prelude.{◌≡◌};
ghost use Rattle.values.specs.Flags.{flag_byte, flags_of};
ghost use Rattle.values.specs.Code.{bits};

use basis::flag;

#[derive(Clone, Copy)]
pub struct Flags {
    pub time_code: bool,
    pub cc_data: bool,
    pub svc_info: bool,
    pub svc_info_start: bool,
    pub svc_info_change: bool,
    pub svc_info_complete: bool,
    pub caption_service_active: bool,
}

impl Flags {
    pub const TIME_CODE_PRESENT: u8 = 0x80;

    pub const CC_DATA_PRESENT: u8 = 0x40;

    pub const SVC_INFO_PRESENT: u8 = 0x20;

    pub const SVC_INFO_START: u8 = 0x10;

    pub const SVC_INFO_CHANGE: u8 = 0x08;

    pub const SVC_INFO_COMPLETE: u8 = 0x04;

    pub const CAPTION_SERVICE_ACTIVE: u8 = 0x02;

    pub const RESERVED: u8 = 0x01;

    // Nothing calls this: its contract holds every constant above to the rules.
    fn held() -> [u8; 8]
        ensures { result ≡ bits }
    {
        [
            Self::TIME_CODE_PRESENT,
            Self::CC_DATA_PRESENT,
            Self::SVC_INFO_PRESENT,
            Self::SVC_INFO_START,
            Self::SVC_INFO_CHANGE,
            Self::SVC_INFO_COMPLETE,
            Self::CAPTION_SERVICE_ACTIVE,
            Self::RESERVED,
        ]
    }
}

// Bit 01 is not read.
impl From<u8> for Flags {
    ghost from_gives = { λ byte flags. flags ≡ flags_of byte };

    fn from(byte: u8) -> Self {
        Self {
            time_code: byte / Self::TIME_CODE_PRESENT % 2 == 1,
            cc_data: byte / Self::CC_DATA_PRESENT % 2 == 1,
            svc_info: byte / Self::SVC_INFO_PRESENT % 2 == 1,
            svc_info_start: byte / Self::SVC_INFO_START % 2 == 1,
            svc_info_change: byte / Self::SVC_INFO_CHANGE % 2 == 1,
            svc_info_complete: byte / Self::SVC_INFO_COMPLETE % 2 == 1,
            caption_service_active: byte / Self::CAPTION_SERVICE_ACTIVE % 2 == 1,
        }
    }
}

// Bits 02 and 01 are always set, whatever the flag for 02 is.
impl From<Flags> for u8 {
    ghost from_gives = { λ flags byte. byte ≡ flag_byte flags };

    fn from(flags: Flags) -> Self {
        flag(flags.time_code, Flags::TIME_CODE_PRESENT)
            + flag(flags.cc_data, Flags::CC_DATA_PRESENT)
            + flag(flags.svc_info, Flags::SVC_INFO_PRESENT)
            + flag(flags.svc_info_start, Flags::SVC_INFO_START)
            + flag(flags.svc_info_change, Flags::SVC_INFO_CHANGE)
            + flag(flags.svc_info_complete, Flags::SVC_INFO_COMPLETE)
            + Flags::CAPTION_SERVICE_ACTIVE
            + Flags::RESERVED
    }
}
