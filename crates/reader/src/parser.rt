// The reader: what it shows, and how a packet or a flush changes that.
ghost use Rattle.std.specs.Prelude.{◌∷◌, ◌≡◌, length};
ghost use Rattle.values.specs.Code.{layout_constants};
ghost use Rattle.values.specs.Layout.{caption_room};
ghost use Rattle.reader.specs.Shown.{fresh_reader, with_services};
ghost use Rattle.reader.specs.Reader as Reader;

use crate::hand_out::hand_out;
use crate::shown::shown;
use basis::{Answer, Refusal};
use read_packet::Checked;
use service_list::MaybeServiceInfo;
use values::{Framerate, Packet};
use values_time::MaybeTimeCode;

// What the last accepted packet had. After a refusal only its service list is left.
#[derive(Clone, Copy)]
pub struct CDPParser {
    pub framerate: Option<Framerate>,
    pub time_code: MaybeTimeCode,
    pub sequence: u16,
    // Whether captioning was on air. In front of the list it takes up no room: bytes are left over there.
    pub caption_active: bool,
    pub service_info: MaybeServiceInfo,
}

// What reading gives: the answer, the place of the byte that is refused, and the reader as it is from then on, after a
// refusal too: so it is no Result.
#[derive(Clone, Copy)]
pub struct CDPParserRead {
    pub place: usize,
    pub answer: Answer,
    pub parser: CDPParser,
}

impl CDPParser {
    pub const MIN_PACKET_LEN: usize = Packet::MIN_PACKET_LEN;

    pub const TIME_CODE_ID: u8 = Packet::TIME_CODE_ID;

    pub const CC_DATA_ID: u8 = Packet::CC_DATA_ID;

    pub const SVC_INFO_ID: u8 = Packet::SVC_INFO_ID;

    pub const CDP_FOOTER_ID: u8 = Packet::CDP_FOOTER_ID;

    // Rule 1: room for the most captions that a packet can have.
    pub const CAPTION_ROOM: usize = Packet::CAPTION_ROOM;

    // Nothing calls this: its contract holds every constant above to the rules.
    fn held() -> [usize; 6]
        ensures { result ≡ caption_room ∷ layout_constants }
    {
        [
            Self::CAPTION_ROOM,
            Self::MIN_PACKET_LEN,
            Self::TIME_CODE_ID as usize,
            Self::CC_DATA_ID as usize,
            Self::SVC_INFO_ID as usize,
            Self::CDP_FOOTER_ID as usize,
        ]
    }

    // A reader that has read nothing.
    pub fn new() -> Self
        ensures { result ≡ fresh_reader }
    {
        Self::holding(MaybeServiceInfo::absent())
    }

    // Reads a packet. An accepted one replaces all that is shown, and its captions are put into the lent buffer.
    #[tactic(auto, using(crate::proofs::ReaderReads::no_room, crate::proofs::ReaderReads::no_room_buffer, crate::proofs::ReaderReads::packet_refused, crate::proofs::ReaderReads::refused_buffer))]
    pub fn parse(self, packet: &[u8], captions: &mut [u8]) -> CDPParserRead
        ensures value { result ≡ Reader.read self packet.now (length captions.old) }
        ensures captions_after { captions.new ≡ Reader.buffer_after packet.now captions.old }
    {
        let room = captions.len();
        if room < Self::CAPTION_ROOM {
            return CDPParserRead {
                answer: Answer::from(Refusal::BufferTooShort(Self::CAPTION_ROOM, room)),
                place: 0,
                parser: self,
            };
        }
        let read = match Checked::parse(packet) {
            Ok(read) => read,
            Err(refused) => {
                return CDPParserRead {
                    answer: Answer::from(refused.refusal),
                    place: refused.place,
                    parser: self.cleared(),
                };
            }
        };
        hand_out(packet, read.flags.cc_data, read.captions_at, captions);
        CDPParserRead {
            answer: Answer::done(read.captions),
            place: 0,
            parser: shown(read, packet),
        }
    }

    // Makes the reader new.
    pub fn flush(self) -> Self
        ensures { result ≡ Reader.flushed_reader self }
    {
        Self::new()
    }

    // What a refused packet leaves: the service list.
    fn cleared(self) -> Self
        ensures { result ≡ Reader.cleared self }
    {
        let service_info = self.service_info;
        Self::holding(service_info)
    }

    // A new reader's state, with a list in it.
    fn holding(service_info: MaybeServiceInfo) -> Self
        ensures { result ≡ with_services service_info fresh_reader }
    {
        Self {
            framerate: None,
            time_code: MaybeTimeCode::ABSENT,
            sequence: 0,
            service_info,
            caption_active: false,
        }
    }
}
