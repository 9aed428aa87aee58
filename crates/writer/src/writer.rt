// The writer's values, the calls that set them, and the one that writes them.
ghost use Rattle.std.specs.Prelude.{◌≡◌};
ghost use Rattle.writer.specs.Writer as Writer;
ghost use Rattle.writer.specs.Code as Code;

use basis::{Answer, Refusal};
use service_list::{MaybeServiceInfo, ServiceInfo};
use values::Framerate;
use values_time::MaybeTimeCode;
use write_bytes::write_packet;

// What goes into the next packets, until it is set anew: writing changes none of it.
#[derive(Clone, Copy)]
pub struct CDPWriter {
    pub time_code: MaybeTimeCode,
    pub service_info: MaybeServiceInfo,
    pub sequence: u16,
}

// What setting a list gives: beside a refusal, the writer as it was. No Result: writers are handed over by value, so that a
// refusal gives the writer back too.
#[derive(Clone, Copy)]
pub struct CDPWriterSet {
    pub answer: Answer,
    pub writer: CDPWriter,
}

impl CDPWriter {
    // Holds nothing; sequence 0.
    pub fn new() -> Self
        ensures { result ≡ Writer.fresh_writer }
    {
        let service_info = MaybeServiceInfo::absent();
        Self {
            time_code: MaybeTimeCode::ABSENT,
            service_info,
            sequence: 0,
        }
    }

    // Any time code is held; one that cannot be written is refused in writing.
    pub fn set_time_code(self, time_code: MaybeTimeCode) -> Self
        ensures { result ≡ Writer.set_time_code self time_code }
    {
        let service_info = self.service_info;
        Self {
            time_code: held_time(time_code),
            service_info,
            sequence: self.sequence,
        }
    }

    // Any list with a count up to 15 is held; entries that cannot be written are refused in writing.
    pub fn set_service_info(self, service_info: MaybeServiceInfo) -> CDPWriterSet
        ensures { result ≡ Writer.set_service_info self service_info }
    {
        let answer = count_checked(service_info);
        if !answer.is_done() {
            return CDPWriterSet {
                answer,
                writer: self,
            };
        }
        CDPWriterSet {
            answer,
            writer: self.holding(service_info),
        }
    }

    fn holding(self, service_info: MaybeServiceInfo) -> Self
        ensures { result ≡ Writer.holding self service_info }
    {
        let time_code = self.time_code;
        Self {
            time_code,
            service_info: held_list(service_info),
            sequence: self.sequence,
        }
    }

    pub fn set_sequence_count(self, sequence: u16) -> Self
        ensures { result ≡ Writer.set_sequence_count self sequence }
    {
        let time_code = self.time_code;
        let service_info = self.service_info;
        Self {
            time_code,
            service_info,
            sequence,
        }
    }

    // Makes the writer new.
    pub fn flush(self) -> Self
        ensures { result ≡ Writer.flushed_writer self }
    {
        Self::new()
    }

    // Writes a packet of what is held at the start of the lent bytes.
    pub fn write(self, framerate: Framerate, captions: &[u8], out: &mut [u8]) -> Answer
        ensures value { result ≡ (Writer.held_written self framerate captions.now out.old).answer }
        ensures out_after { out.new ≡ (Writer.held_written self framerate captions.now out.old).buffer }
    {
        write_packet(
            framerate,
            self.sequence,
            self.time_code,
            self.service_info,
            captions,
            out,
        )
    }
}

// An absent time code is held as zeros.
fn held_time(time_code: MaybeTimeCode) -> MaybeTimeCode
    ensures { result ≡ Writer.held_time time_code }
{
    if !time_code.present {
        return MaybeTimeCode::ABSENT;
    }
    time_code
}

// An absent list is held as the empty one.
fn held_list(service_info: MaybeServiceInfo) -> MaybeServiceInfo
    ensures { result ≡ Writer.held_list service_info }
{
    if !service_info.present {
        return MaybeServiceInfo::absent();
    }
    service_info
}

// Whether a list that is there counts up to 15.
#[tactic(auto, using(crate::proofs::Setters::count_over))]
fn count_checked(service_info: MaybeServiceInfo) -> Answer
    ensures { result ≡ Code.count_answer service_info }
{
    if !service_info.present {
        return Answer::done(0);
    }
    let list = service_info.service_info;
    if ServiceInfo::PLACES < list.count {
        return Answer::from(Refusal::WouldOverflow);
    }
    Answer::done(0)
}
