ghost use Rattle.std.specs.Prelude.{◌≡◌, ◌++◌, Some, IfOk, string_bytes, MatchResult};
ghost use Rattle.refusals.specs.declared.refusal.Refusal.TheVariants.{NoSpace};
ghost use Rattle.dump.specs.Dump.{avps_text, dump_text, end_text, header_text};
ghost use Rattle.dump.specs.Lines.{line_of};

use crate::line::Line;
use diameter::{Entry, Item, Visitor, visit_message};
use diameter_headers::MessageHeader;
use gx_dictionary::Part;
use hex_text::Hex;
use refusals::{Fault, Refusal};
use std::alloc::{AllocError, Global};
use std::fmt;

// A message's header, with the octets that the message really has.
#[derive(Clone, Copy)]
struct Header {
    header: MessageHeader,
    octets: usize,
}

impl fmt::Display for Header {
    ghost output = { λ it. Some (header_text it.header it.octets) };

    fn fmt<W: fmt::Write>(&self, f: &mut fmt::Formatter<W>) -> fmt::Result {
        let octets = self.octets;
        let MessageHeader {
            version,
            length,
            flags,
            command,
            application,
            hop_by_hop,
            end_to_end,
        } = self.header;
        writeln!(
            f,
            "version {version} length {length} of {octets} command {command} flags 0x{}",
            Hex(&[flags])
        )?;
        writeln!(
            f,
            "application {application} hop-by-hop {hop_by_hop} end-to-end {end_to_end}"
        )?;
        if length as usize != octets {
            let refusal = Refusal::MessageLength;
            writeln!(
                f,
                "fault at 0: the header says {length} octets, the message has {octets} ({refusal})"
            )?;
        }
        Ok(())
    }
}

// How the AVPs of a message end.
#[derive(Clone, Copy)]
struct End(Result<(), Fault>);

impl fmt::Display for End {
    ghost output = { λ end. Some (end_text end.0) };

    fn fmt<W: fmt::Write>(&self, f: &mut fmt::Formatter<W>) -> fmt::Result {
        match self.0 {
            Ok(()) => writeln!(f, "end: every AVP is well framed"),
            Err(fault) => {
                let Fault { refusal, offset } = fault;
                writeln!(
                    f,
                    "fault at {offset}: the AVP does not fit, does not cover its header, or is a number without four octets ({refusal})"
                )
            }
        }
    }
}

// Adds a line for each AVP that it is shown; where memory runs out, it refuses.
#[derive(Drop)]
struct Lines {
    text: String,
}

impl Visitor<Part> for Lines {
    ghost shows = { λ u e v a w. MatchResult a (λ _. string_bytes w.text ≡ string_bytes u.text ++ line_of e v) (λ refusal. refusal ≡ NoSpace) };

    fn show(&mut self, entry: &Entry<Part>, item: Item<'_>) -> Result<(), Refusal> {
        write!(self.text, "{}", Line { entry, item }).map_err(|_| Refusal::NoSpace)
    }
}

// Adds a line for each AVP to a text, and how they end.
fn add_avps(text: String, message: &[u8]) -> Result<String, AllocError>
    ensures { IfOk result (λ s. string_bytes s ≡ string_bytes text ++ avps_text message.now) }
{
    let mut lines = Lines { text };
    let end = visit_message(message, Part::Message, &mut lines);
    if end == Err(Fault::at(Refusal::NoSpace, 0)) {
        return Err(AllocError);
    }
    let Lines { mut text } = lines;
    write!(text, "{}", End(end))?;
    Ok(text)
}

// A message as text: its header, a line for each AVP, and how it ends.
#[tactic(auto, unfolding(crate::specs::Dump::dump_text))]
pub fn message_text(heap: Global, message: &[u8]) -> Result<Vec<u8>, AllocError>
    ensures { IfOk result (λ v. v.items ≡ dump_text message.now) }
{
    let octets = message.len();
    let mut text = String::new(heap);
    let Some(header) = MessageHeader::read(message) else {
        let refusal = Refusal::MessageLength;
        writeln!(
            text,
            "fault at 0: the message has {octets} octets, a header has 20 ({refusal})"
        )?;
        return Ok(text.into_bytes());
    };
    write!(text, "{}", Header { header, octets })?;
    let text = add_avps(text, message)?;
    Ok(text.into_bytes())
}
