ghost use Rattle.std.specs.Prelude.{◌≡◌, ◌==◌, Decides, Some};
ghost use Rattle.refusals.specs.Meanings.{meaning};
ghost use Rattle.refusals.specs.Texts.{refusal_text};
ghost use Rattle.refusals.specs.declared.refusal.Refusal.{Refusal};
ghost use Rattle.std.specs.Cmp.Rules.{comparing};
ghost use Rattle.std.proofs.Common.{rules};

use std::fmt;

// The layer that a refusal comes from.
#[derive(Clone, Copy, PartialEq, Eq, Debug)]
pub enum Layer {
    Call,
    Framing,
    Grammar,
    Session,
    Rules,
    Configuration,
}

// Every reason for which a call is refused, in the order in which the questions are put.
#[derive(Clone, Copy, Eq, Debug)]
pub enum Refusal {
    BearerNumber,
    State,
    TextLength,
    TriggerNotArmed,
    UpdatesSpent,
    NoSpace,
    MessageLength,
    Version,
    Command,
    HeaderFlags,
    Application,
    AvpLength,
    UnknownMandatory,
    ValueRange,
    TooOften,
    Missing,
    SessionId,
    NotAwaited,
    RuleContent,
    TooManyMembers,
    StoreFull,
    ConfigurationParts,
    ConfigurationCounts,
    ConfigurationRule,
    ConfigurationNames,
    ConfigurationGroup,
}

impl Refusal {
    // The refusal's number; no other refusal has it.
    pub fn number(self) -> u8
        ensures value { result ≡ (meaning self).number }
        ensures unique { (other : Refusal) → (meaning other).number ≡ (meaning self).number → other ≡ self }
    {
        match self {
            Refusal::BearerNumber => 1,
            Refusal::State => 2,
            Refusal::TextLength => 3,
            Refusal::TriggerNotArmed => 4,
            Refusal::UpdatesSpent => 5,
            Refusal::NoSpace => 6,
            Refusal::MessageLength => 7,
            Refusal::Version => 8,
            Refusal::Command => 9,
            Refusal::HeaderFlags => 10,
            Refusal::Application => 11,
            Refusal::AvpLength => 12,
            Refusal::UnknownMandatory => 13,
            Refusal::ValueRange => 14,
            Refusal::TooOften => 15,
            Refusal::Missing => 16,
            Refusal::SessionId => 17,
            Refusal::NotAwaited => 18,
            Refusal::RuleContent => 19,
            Refusal::TooManyMembers => 20,
            Refusal::StoreFull => 21,
            Refusal::ConfigurationParts => 22,
            Refusal::ConfigurationCounts => 23,
            Refusal::ConfigurationRule => 24,
            Refusal::ConfigurationNames => 25,
            Refusal::ConfigurationGroup => 26,
        }
    }

    // The Diameter Result-Code that a peer would be told; 0 where no message is at fault.
    pub fn code(self) -> u16
        ensures { result ≡ (meaning self).code }
    {
        match self {
            Refusal::MessageLength => 5015,
            Refusal::Version => 5011,
            Refusal::Command => 3001,
            Refusal::HeaderFlags => 3008,
            Refusal::Application => 3007,
            Refusal::AvpLength => 5014,
            Refusal::UnknownMandatory => 5001,
            Refusal::ValueRange | Refusal::RuleContent => 5004,
            Refusal::TooOften => 5009,
            Refusal::Missing => 5005,
            Refusal::SessionId => 5002,
            Refusal::NotAwaited => 5012,
            Refusal::TooManyMembers | Refusal::StoreFull => 5006,
            _ => 0,
        }
    }

    // The layer that the refusal comes from.
    pub fn layer(self) -> Layer
        ensures { result ≡ (meaning self).layer }
    {
        match self {
            Refusal::BearerNumber
            | Refusal::State
            | Refusal::TextLength
            | Refusal::TriggerNotArmed
            | Refusal::UpdatesSpent
            | Refusal::NoSpace => Layer::Call,
            Refusal::MessageLength
            | Refusal::Version
            | Refusal::Command
            | Refusal::HeaderFlags
            | Refusal::Application
            | Refusal::AvpLength => Layer::Framing,
            Refusal::UnknownMandatory
            | Refusal::ValueRange
            | Refusal::TooOften
            | Refusal::Missing => Layer::Grammar,
            Refusal::SessionId | Refusal::NotAwaited => Layer::Session,
            Refusal::RuleContent | Refusal::TooManyMembers | Refusal::StoreFull => Layer::Rules,
            Refusal::ConfigurationParts
            | Refusal::ConfigurationCounts
            | Refusal::ConfigurationRule
            | Refusal::ConfigurationNames
            | Refusal::ConfigurationGroup => Layer::Configuration,
        }
    }

    // Whether a fault of this kind names the AVP at fault.
    pub(crate) fn is_located(self) -> bool
        ensures { result ≡ (meaning self).located }
    {
        match self {
            Refusal::AvpLength
            | Refusal::UnknownMandatory
            | Refusal::ValueRange
            | Refusal::TooOften
            | Refusal::RuleContent => true,
            _ => false,
        }
    }
}

// Refusals are compared by their numbers, which tell them apart.
impl PartialEq for Refusal {
    ghost eq = { λ x y. (meaning x).number == (meaning y).number };

    ghost laws = { Prim.search (comparing, rules) };

    fn eq(&self, other: &Refusal) -> bool
        ensures value { result ≡ ((meaning self.now).number == (meaning other.now).number) }
        ensures equal { Decides result (self.now ≡ other.now) }
    {
        self.number() == other.number()
    }
}

// For people: the number, and the code that a peer would be told.
impl fmt::Display for Refusal {
    ghost output = { λ refusal. Some (refusal_text refusal) };

    fn fmt<W: fmt::Write>(&self, f: &mut fmt::Formatter<W>) -> fmt::Result {
        let number = self.number();
        let code = self.code();
        write!(f, "refusal {number}, Diameter code {code}")
    }
}
