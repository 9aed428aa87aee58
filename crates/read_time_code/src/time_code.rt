// Rule 5: the time code.
ghost use Rattle.std.specs.Prelude.{◌≡◌, ◌+◌, ◌≤◌, length};
ghost use Rattle.values.specs.Layout.{time_code_size};
ghost use Rattle.read_time_code.specs.Code.{four_behind, time_code_read};

use basis::{Refusal, Refused};
use values::Packet;
use values_time::{MaybeTimeCode, TimeCode};

// The size is how far a reader moves on: 0 without a time code.
#[derive(Clone, Copy)]
pub struct TimeCodeSection {
    pub time_code: MaybeTimeCode,
    pub size: usize,
}

impl TimeCodeSection {
    // Reads the section at a place, where the header says that it is there.
    #[tactic(auto, using(crate::proofs::TimeCodeReads::not_there, crate::proofs::TimeCodeReads::too_short, crate::proofs::TimeCodeReads::other_id, crate::proofs::TimeCodeReads::bytes_wrong, crate::proofs::TimeCodeReads::time_code_whole, values_time::proofs::TimeReads::time_near_refused))]
    pub fn parse(packet: &[u8], present: bool, at: u8) -> Result<Self, Refused>
        ensures { result ≡ time_code_read packet.now present at }
    {
        if !present {
            return Ok(Self {
                time_code: MaybeTimeCode::ABSENT,
                size: 0,
            });
        }
        let size = packet.len();
        let i = at as usize;
        let end = i + Packet::TIME_CODE_LEN;
        if size < end {
            return Err(Refused::at(Refusal::LengthMismatch(end, size), size));
        }
        if packet[i] != Packet::TIME_CODE_ID {
            return Err(Refused::at(Refusal::WrongMagic, i));
        }
        match TimeCode::parse(four_behind(packet, i)) {
            Ok(time_code) => Ok(Self {
                time_code: MaybeTimeCode {
                    present: true,
                    time_code,
                },
                size: Packet::TIME_CODE_LEN,
            }),
            Err(refused) => Err(Refused::at(refused.refusal, i + 1 + refused.place)),
        }
    }
}

// The four bytes behind the id byte.
fn four_behind(packet: &[u8], i: usize) -> [u8; 4]
    requires { i + time_code_size ≤ length packet.now }
    ensures { result ≡ four_behind packet.now i }
{
    [packet[i + 1], packet[i + 2], packet[i + 3], packet[i + 4]]
}
