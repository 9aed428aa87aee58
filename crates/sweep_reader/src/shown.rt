// What a reader shows, fed to a digest. What is absent is fed too, since it has to be zeros.
ghost use Rattle.std.specs.Prelude.{◌≡◌};
ghost use Rattle.sweep_reader.specs.Shown as Shown;

use reader::CDPParser;
use report::{feed, flag_fed, list_fed, two_fed};
use service_list::{MaybeServiceInfo, ServiceInfo};
use values::Framerate;
use values_time::MaybeTimeCode;

pub fn reader(digest: u64, shown: CDPParser) -> u64
    ensures { result ≡ Shown.reader_fed digest shown }
{
    let framerate = shown.framerate;
    let time_code = shown.time_code;
    let service_info = shown.service_info;
    let rate = rate(digest, framerate);
    let time = time(rate, time_code);
    let sequence = two_fed(time, shown.sequence as u64);
    list(sequence, service_info)
}

fn rate(digest: u64, shown: Option<Framerate>) -> u64
    ensures { result ≡ Shown.rate_fed digest shown }
{
    let present = flag_fed(digest, shown.is_some());
    let framerate = shown.unwrap_or(Framerate::NONE);
    let id = feed(present, framerate.id);
    four(four(id, framerate.numer as u64), framerate.denom as u64)
}

// The low four bytes of a number, high byte first.
fn four(digest: u64, n: u64) -> u64
    ensures { result ≡ Shown.four_fed digest n }
{
    two_fed(two_fed(digest, n / 65536), n)
}

fn time(digest: u64, shown: MaybeTimeCode) -> u64
    ensures { result ≡ Shown.time_code_fed digest shown }
{
    let time = shown.time_code;
    let present = flag_fed(digest, shown.present);
    let hours = feed(present, time.hours);
    let minutes = feed(hours, time.minutes);
    let seconds = feed(minutes, time.seconds);
    let frames = feed(seconds, time.frames);
    flag_fed(flag_fed(frames, time.field), time.drop_frame)
}

// A list with all its places: those behind its count have to be fillers.
fn list(digest: u64, shown: MaybeServiceInfo) -> u64
    ensures { result ≡ Shown.places_fed digest shown }
{
    let list = shown.service_info;
    list_fed(flag_fed(digest, shown.present), list, ServiceInfo::PLACES)
}
