// The values of a byte that a test takes, as values and ranges.
ghost use Rattle.std.specs.Prelude.{◌++◌, ◌≡◌};
ghost use Rattle.explain_tests.specs.Tests as Tests;
ghost use Rattle.text.specs.Room.{PutInRoom};
ghost use Rattle.text_values.specs.Code as Code;
ghost use Rattle.text_values.specs.Runs as Runs;

use basis::ByteTest;
use explain_tests::takes;
use text::hex;

// The values from low to high, both among them.
#[derive(Clone, Copy)]
struct Run {
    low: u8,
    high: u8,
}

// What is held of the values looked at so far: whether a run is put, and the run that goes on, where the last value was
// taken.
#[derive(Clone, Copy)]
struct Scan {
    some: bool,
    going: Option<Run>,
}

// Puts the values that are taken, of all that a byte can have.
pub(crate) fn taken(out: &mut [u8], from: usize, test: ByteTest, said: u8) -> usize
    ensures { PutInRoom from (Runs.runs_text (Runs.runs_of (Tests.takes test said))) out.old result out.new }
{
    let mut at = from;
    let mut scan = Scan {
        some: false,
        going: None,
    };
    // Not `0..=u8::MAX`: that loop ends in a branch named by its bound, which the edit upper_half_left_out changes.
    for value in 0..256usize {
        let asked = takes(test, said, value as u8);
        at = behind(out, at, scan, asked);
        scan = next(scan, value as u8, asked);
    }
    last(out, at, scan)
}

// A run ends behind the last of its values.
fn behind(out: &mut [u8], at: usize, scan: Scan, asked: bool) -> usize
    ensures { PutInRoom at (Code.put_at scan asked) out.old result out.new }
{
    if asked {
        return at;
    }
    last(out, at, scan)
}

fn next(scan: Scan, value: u8, asked: bool) -> Scan
    ensures { result ≡ Code.next_scan scan value asked }
{
    if asked {
        let low = scan.going.map_or(value, |run| run.low);
        return Scan {
            some: scan.some,
            going: Some(Run { low, high: value }),
        };
    }
    Scan {
        some: scan.some || scan.going.is_some(),
        going: None,
    }
}

// Puts the run that goes on, if one does.
fn last(out: &mut [u8], at: usize, scan: Scan) -> usize
    ensures { PutInRoom at (Code.going_text scan) out.old result out.new }
{
    let Some(going) = scan.going else {
        return at;
    };
    if scan.some {
        put_run(out, at, b",", going)
    } else {
        put_run(out, at, b"", going)
    }
}

fn put_run(out: &mut [u8], at: usize, between: &[u8], run: Run) -> usize
    ensures { PutInRoom at (between.now ++ Runs.run_text run) out.old result out.new }
{
    let first = hex(out, at, between, run.low);
    if run.low == run.high {
        return first;
    }
    hex(out, first, b"-", run.high)
}
