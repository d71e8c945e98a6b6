// Puts the questions of framing to each message of a table on standard input. A line is a name, a space and the octets in
// hexadecimal.
#![tactic(auto)]

ghost use Rattle.std.specs.Prelude.{◌≡◌};
ghost use Rattle.framing_cases.specs.Verdict.{verdict};

use anyhow::Context;
use diameter_checks::check_framing;
use diameter_headers::check_length;
use gx_dictionary::Part;
use hex_text::read_hex;
use refusals::Fault;
use std::io;

// Whether a message has the length that its header says, and every AVP is well framed.
fn judge(octets: &[u8]) -> Result<(), Fault>
    ensures { result ≡ verdict octets.now }
{
    check_length(octets)?;
    check_framing(octets, Part::Message)
}

// Prints the verdict on a message.
fn print_verdict(rt: &HostRuntime, name: &str, octets: &[u8]) -> io::Result<()> {
    match judge(octets) {
        Ok(()) => println!(rt; "{name}: well framed"),
        Err(Fault { refusal, offset }) => {
            let number = refusal.number();
            let code = refusal.code();
            println!(rt; "{name}: refusal {number}, code {code}, at offset {offset}")
        }
    }
}

// Runs one line of the table.
fn run_case(rt: &HostRuntime, line: &str) -> anyhow::Result<()> {
    let (name, hex) = line.split_once(' ').context("a line has no space")?;
    let octets = read_hex(rt.alloc(), hex.as_bytes())
        .ok()
        .context("a line is not hexadecimal")?;
    print_verdict(rt, name, octets.as_slice())?;
    Ok(())
}

fn main(rt: HostRuntime) -> anyhow::Result<()> {
    for line in rt.lines(rt.alloc()) {
        run_case(&rt, line?.as_str())?;
    }
    Ok(())
}
