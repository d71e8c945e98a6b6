ghost use Rattle.std.specs.Prelude.{◌≡◌, true, false, Some, MatchOption};
ghost use Rattle.diameter.specs.Values.{held};
ghost use Rattle.dump.specs.Lines.{all_printable, indent_of, line_of, printable, value_text};

use diameter::{Entry, Item};
use gx_dictionary::Part;
use hex_text::Hex;
use std::{fmt, str};

// What a line at this place begins with.
fn indent(place: Part) -> &'static str
    ensures { result.now ≡ indent_of place }
{
    match place {
        Part::Message => "",
        Part::ExperimentalResult | Part::Remove | Part::Install => "  ",
        Part::Definition => "    ",
    }
}

// Whether an octet is shown as a character.
fn is_printable(c: u8) -> bool
    ensures { result ≡ printable c }
{
    matches!(c, b' '..=b'~') && c != b'"' && c != b'\\'
}

// Whether all octets are shown as characters.
fn all_printable(octets: &[u8]) -> bool
    ensures { result ≡ all_printable octets.now }
{
    octets.iter().all(|&c| is_printable(c))
}

// The octets as text, where all of them are shown as characters.
fn printable_text(octets: &[u8]) -> Option<&str>
    ensures { MatchOption result (all_printable octets.now ≡ false) (λ text. (all_printable octets.now ≡ true) × (text.now ≡ octets.now)) }
{
    if all_printable(octets) {
        str::from_utf8(octets).ok()
    } else {
        None
    }
}

// The data of an AVP: a number, or octets, quoted where they are text, else in hexadecimal.
#[derive(Clone, Copy)]
struct Data<'a>(Item<'a>);

impl fmt::Display for Data<'_> {
    ghost output = { λ it. Some (value_text (held it.0)) };

    fn fmt<W: fmt::Write>(&self, f: &mut fmt::Formatter<W>) -> fmt::Result {
        match self.0 {
            Item::Number(n) => write!(f, "{n}"),
            Item::Octets(octets) => match printable_text(octets) {
                Some(text) => write!(f, "\"{text}\""),
                None => write!(f, "0x{}", Hex(octets)),
            },
            Item::Group(_) => write!(f, "group"),
        }
    }
}

// The line of an AVP.
#[derive(Clone, Copy)]
pub(crate) struct Line<'a> {
    pub(crate) entry: &'a Entry<Part>,
    pub(crate) item: Item<'a>,
}

impl fmt::Display for Line<'_> {
    ghost output = { λ line. Some (line_of line.entry.now (held line.item)) };

    #[tactic(auto, unfolding(crate::specs::Lines::line_of))]
    fn fmt<W: fmt::Write>(&self, f: &mut fmt::Formatter<W>) -> fmt::Result {
        let Entry {
            place,
            offset,
            code,
            vendor,
            flags,
            ..
        } = *self.entry;
        let indent = indent(place);
        writeln!(
            f,
            "{indent}{offset}: code {code} vendor {vendor} flags 0x{} {}",
            Hex(&[flags]),
            Data(self.item)
        )
    }
}
