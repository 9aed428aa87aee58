// The round trip as one function, so that its arguments' types say what no test does: that a language has three bytes.
// Nothing calls it.
#![tactic(auto)]

ghost use Rattle.theorem_round_trip.specs.Back.{WrittenAndRead};

use reader::{CDPParser, CDPParserRead};
use values::Framerate;
use writer::CDPWriter;

// Writes a packet and reads it; a refusal of the writer is answered, and nothing is read.
fn written_and_read(
    writer: CDPWriter,
    framerate: Framerate,
    captions: &[u8],
    out: &mut [u8],
    parser: CDPParser,
    lent: &mut [u8],
) -> CDPParserRead
    ensures { WrittenAndRead writer framerate captions.now out.old parser lent.old result out.new lent.new }
{
    let written = writer.write(framerate, captions, out);
    if !written.is_done() {
        return CDPParserRead {
            answer: written,
            place: 0,
            parser,
        };
    }
    let size = written.first;
    parser.parse(&out[..size], lent)
}
