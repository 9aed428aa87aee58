// Every value of one byte of a packet.
ghost use Rattle.std.specs.Prelude.{◌≡◌};
ghost use Rattle.sweep_reader.specs.Change as Changes;
ghost use Rattle.sweep_reader.specs.Read as Read;

use crate::mend::mend;
use crate::read;
use crate::read::Tally;
use reader::CDPParser;
use text::byte;

// Which byte is changed, whether the checksum is mended after it, and how many bytes follow the footer.
#[derive(Clone, Copy)]
pub struct Change {
    pub place: usize,
    pub mended: bool,
    pub behind: u8,
}

pub fn values(held: CDPParser, packet: &mut [u8], change: Change, captions: &mut [u8]) -> Tally
    ensures value { result ≡ (Changes.all_values held change packet.old captions.old).tally }
    ensures packet_after { packet.new ≡ (Changes.all_values held change packet.old captions.old).packet }
    ensures captions_after { captions.new ≡ (Changes.all_values held change packet.old captions.old).captions }
{
    let mut tally = Tally::NONE;
    // A closure would have to change what is lent.
    for value in 0..256 {
        tally = changed(tally, held, packet, change, value, captions);
    }
    tally
}

// Where the place is that of the mending byte itself, mending puts the good packet back.
fn changed(
    tally: Tally,
    held: CDPParser,
    packet: &mut [u8],
    change: Change,
    value: u64,
    captions: &mut [u8],
) -> Tally
    ensures value { result ≡ Read.packet_tallied tally held (Changes.changed_packet change value packet.old) captions.old }
    ensures packet_after { packet.new ≡ Changes.changed_packet change value packet.old }
    ensures captions_after { captions.new ≡ Read.captions_after (Changes.changed_packet change value packet.old) captions.old }
{
    byte(packet, change.place, (value % 256) as u8);
    mended(packet, change);
    read::packet(tally, held, packet, captions)
}

fn mended(packet: &mut [u8], change: Change)
    ensures { packet.new ≡ Changes.mended_if change packet.old }
{
    if change.mended {
        mend(packet, change.behind);
    }
}
