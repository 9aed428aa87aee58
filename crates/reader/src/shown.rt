// What the reader shows of a packet that is accepted.
ghost use Rattle.std.specs.Prelude.{◌≡◌, Ok};
ghost use Rattle.read_packet.specs.Code.{checked_read};
ghost use Rattle.reader.specs.Shown.{shown_by};

use crate::list_made::list;
use crate::parser::CDPParser;
use read_packet::Checked;

// What the packet's tests have kept of it, and its list.
pub(crate) fn shown(read: Checked, packet: &[u8]) -> CDPParser
    requires { checked_read packet.now ≡ Ok read }
    ensures { result ≡ shown_by packet.now }
{
    let framerate = read.framerate;
    let time_code = read.time_code;
    let flags = read.flags;
    CDPParser {
        framerate: Some(framerate),
        time_code,
        sequence: read.sequence,
        service_info: list(packet, flags, read.services_at),
        caption_active: flags.caption_service_active,
    }
}
