// Reads one packet from standard input and prints what is in it, or what is answered where it is refused. The files
// stdin and stdout beside src/ are an example of both; cases/ has more.
#![tactic(auto)]

ghost use Rattle.std.specs.Prelude.{◌≡◌, length};
ghost use Rattle.text_dump.specs.Dump.{dump_text, most_text};

use std::io;
use text_dump::Dump;

// The buffer for the input has one byte more than is taken, which shows that there are too many.
fn main(rt: HostRuntime) {
    let mut input = [0u8; Dump::MOST_INPUT + 1];
    let mut text = [0u8; Dump::MOST_TEXT];
    // What failed has been said.
    let _ = dump(&rt, &mut input, &mut text);
}

// Of an input that cannot be read to its end nothing is printed.
fn dump(rt: &(impl Input + Print + Eprint), input: &mut [u8], text: &mut [u8]) -> io::Result<()>
    requires { length text.old ≡ most_text }
{
    let count = streams::read_all(rt, input)?;
    print(rt, &input[..count], text)
}

fn print(rt: &(impl Print + Eprint), input: &[u8], text: &mut [u8]) -> io::Result<()>
    requires { length text.old ≡ most_text }
{
    let answer = Dump::write_into(input, text);
    let length = answer.first;
    hand_on(rt, input, &text[..length])
}

// What is written is the text of what was read, all of it and nothing else: whoever calls this has to show it. So each
// program has its own, and its own `main`: a shared one would be public, and no public function asks.
fn hand_on(rt: &(impl Print + Eprint), input: &[u8], text: &[u8]) -> io::Result<()>
    requires { text.now ≡ dump_text input.now }
{
    streams::write(rt, text)
}
