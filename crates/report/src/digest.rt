// A number for a block of values, the same on both sides.
ghost use Rattle.std.specs.Prelude.{◌≡◌, take};
ghost use Rattle.report.specs.Digest as Digest;

use service_entry::{FieldOrService, ServiceEntry};
use service_list::ServiceInfo;

pub fn feed(digest: u64, byte: u8) -> u64
    ensures { result ≡ Digest.fed digest byte }
{
    (digest % 0x1_0000_0000 * 16777619 + byte as u64 + 1) % 0x1_0000_0000
}

pub fn flag_fed(digest: u64, on: bool) -> u64
    ensures { result ≡ Digest.flag_fed digest on }
{
    if on { feed(digest, 1) } else { feed(digest, 0) }
}

// The low two bytes of a number, high byte first.
pub fn two_fed(digest: u64, n: u64) -> u64
    ensures { result ≡ Digest.two_fed digest n }
{
    feed(feed(digest, (n / 256 % 256) as u8), (n % 256) as u8)
}

pub fn all_fed(first: u64, bytes: &[u8]) -> u64
    ensures { result ≡ Digest.all_fed first bytes.now }
{
    bytes.iter().fold(first, |digest, byte| feed(digest, *byte))
}

// A list's flags and its count, then so many of its places.
pub fn list_fed(digest: u64, list: ServiceInfo, places: usize) -> u64
    ensures { result ≡ Digest.list_fed digest list places }
{
    let start = flag_fed(digest, list.start);
    let change = flag_fed(start, list.change);
    let complete = flag_fed(change, list.complete);
    let count = feed(complete, (list.count % 256) as u8);
    let services = list.services;
    entries_fed(count, services, places)
}

// So many of the entries. A count over 15 ends at the last place.
fn entries_fed(first: u64, services: [ServiceEntry; 15], count: usize) -> u64
    ensures { result ≡ Digest.entries_fed first (take count services) }
{
    let counted = services.iter().take(count);
    counted.fold(first, |digest, entry| entry_fed(digest, *entry))
}

// The language, then the service.
pub fn entry_fed(digest: u64, entry: ServiceEntry) -> u64
    ensures { result ≡ Digest.entry_fed digest entry }
{
    let language = entry.language;
    let service = entry.service;
    let first = feed(digest, language[0]);
    let second = feed(first, language[1]);
    let third = feed(second, language[2]);
    service_fed(third, service)
}

// 0 and a field, or 1 and a digital service.
fn service_fed(digest: u64, service: FieldOrService) -> u64
    ensures { result ≡ Digest.service_fed digest service }
{
    match service {
        FieldOrService::Field(first) => {
            let field = feed(digest, 0);
            if first {
                feed(field, 1)
            } else {
                feed(field, 2)
            }
        }
        FieldOrService::Service(digital) => {
            let number = feed(feed(digest, 1), digital.service);
            let easy = flag_fed(number, digital.easy_reader);
            flag_fed(easy, digital.wide_aspect_ratio)
        }
    }
}
