// avpdump: reads a Diameter message as hexadecimal text from standard input and shows its header and its AVPs.
#![tactic(auto)]

use anyhow::anyhow;
use dump::message_text;
use hex_text::read_hex;
use std::io::{Read, Write};

fn main(rt: HostRuntime) -> anyhow::Result<()> {
    let mut input = Vec::new(rt.alloc());
    rt.stdin().read_to_end(&mut input)?;
    let octets = match read_hex(rt.alloc(), input.as_slice()) {
        Ok(octets) => octets,
        Err(error) => {
            eprintln!(rt; "avpdump: {error}")?;
            return Err(anyhow!("the input is no message in hexadecimal"));
        }
    };
    let text = message_text(rt.alloc(), octets.as_slice())?;
    rt.stdout().write_all(text.as_slice())?;
    Ok(())
}
