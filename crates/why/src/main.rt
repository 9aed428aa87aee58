// Reads one packet from standard input and prints why it is refused, or that it is accepted. The files stdin and stdout
// beside src/ are an example of both; cases/ has more.
#![tactic(auto)]

ghost use Rattle.std.specs.Prelude.{◌≡◌, length};
ghost use Rattle.text_why.specs.Explained.{why_most_text, why_text};

use std::io;
use text_why::WhyText;

// The buffer for the input has one byte more than is taken, which shows that there are too many.
fn main(rt: HostRuntime) {
    let mut input = [0u8; WhyText::MOST_INPUT + 1];
    let mut text = [0u8; WhyText::MOST_TEXT];
    // What failed has been said.
    let _ = tell(&rt, &mut input, &mut text);
}

// Of an input that cannot be read to its end nothing is printed.
fn tell(rt: &(impl Input + Print + Eprint), input: &mut [u8], text: &mut [u8]) -> io::Result<()>
    requires { length text.old ≡ why_most_text }
{
    let count = streams::read_all(rt, input)?;
    print(rt, &input[..count], text)
}

fn print(rt: &(impl Print + Eprint), input: &[u8], text: &mut [u8]) -> io::Result<()>
    requires { length text.old ≡ why_most_text }
{
    let answer = WhyText::write_into(input, text);
    let length = answer.first;
    hand_on(rt, input, &text[..length])
}

// What is written is the text of what was read, all of it and nothing else: whoever calls this has to show it. So each
// program has its own, and its own `main`: a shared one would be public, and no public function asks.
fn hand_on(rt: &(impl Print + Eprint), input: &[u8], text: &[u8]) -> io::Result<()>
    requires { text.now ≡ why_text input.now }
{
    streams::write(rt, text)
}
