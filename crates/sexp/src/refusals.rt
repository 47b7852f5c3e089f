//! Why a call was refused, in every layer of the fitter.
ghost use Rattle.std.specs.Prelude.{◌≡◌};
ghost use Rattle.sexp.specs.Refusals.{number_of, part_of, offset_of};

use std::error::Error;
use std::fmt;

/// The part of the fitter that a refusal came from.
#[derive(Clone, Copy, PartialEq, Eq, Debug)]
pub enum Part {
    Text,
    Book,
    Table,
    Job,
}

/// A refusal, with the offset of the octet or element that it is about where it has one.
#[derive(Clone, Copy, PartialEq, Eq, Debug)]
pub enum Refusal {
    /// A text of no octet, or of more than 32,768.
    TextLength,
    /// A text that is not canonical.
    Malformed { offset: usize },
    /// A record past a limit; more than 4,095 readings.
    OverLimit { offset: usize },
    /// A book's root that is no list; a rule that is no list of two.
    NotAList { offset: usize },
    /// An atom of a pattern or a template that is empty or begins with no sign.
    UnknownSign { offset: usize },
    /// A name of no octet, or of more than 32.
    NameLength { offset: usize },
    /// A segment that is a whole pattern or template.
    WholeSegment { offset: usize },
    /// A name that has the other sign in this rule already.
    OtherSign { offset: usize },
    /// A rule past a limit.
    RuleLimit { offset: usize },
    /// A name of a template that its pattern lacks.
    UnboundName { offset: usize },
    /// 64 rules are taken.
    BookFull,
    /// No rule is next.
    NoRule,
    /// No unused node is left for an element.
    NoNode { offset: usize },
    /// Nodes that are no record within the limits.
    NotATable,
    /// Fewer than 256 marks or places of working memory.
    SmallMemory,
    /// No fit stands.
    NoFit,
    /// A name that the standing rule lacks.
    UnknownName,
    /// A result past 4,096 elements, depth 32 or 32,768 octets.
    ResultTooLarge,
    /// An output shorter than the result.
    ShortOutput,
}

impl Refusal {
    /// The number that stands for this refusal in the fitter's documents.
    // No `From`: number, part and offset are three questions of one refusal, and are put alike.
    pub fn number(self) -> u8
        ensures { result ≡ number_of self }
    {
        match self {
            Refusal::TextLength => 1,
            Refusal::Malformed { .. } => 2,
            Refusal::OverLimit { .. } => 3,
            Refusal::NotAList { .. } => 4,
            Refusal::UnknownSign { .. } => 5,
            Refusal::NameLength { .. } => 6,
            Refusal::WholeSegment { .. } => 7,
            Refusal::OtherSign { .. } => 8,
            Refusal::RuleLimit { .. } => 9,
            Refusal::UnboundName { .. } => 10,
            Refusal::BookFull => 11,
            Refusal::NoRule => 12,
            Refusal::NoNode { .. } => 13,
            Refusal::NotATable => 14,
            Refusal::SmallMemory => 15,
            Refusal::NoFit => 16,
            Refusal::UnknownName => 17,
            Refusal::ResultTooLarge => 18,
            Refusal::ShortOutput => 19,
        }
    }

    /// The part of the fitter that refused.
    pub fn part(self) -> Part
        ensures { result ≡ part_of self }
    {
        match self {
            Refusal::TextLength | Refusal::Malformed { .. } | Refusal::OverLimit { .. } =>
                Part::Text,
            Refusal::NoNode { .. } | Refusal::NotATable => Part::Table,
            Refusal::SmallMemory
            | Refusal::NoFit
            | Refusal::UnknownName
            | Refusal::ResultTooLarge
            | Refusal::ShortOutput => Part::Job,
            _ => Part::Book,
        }
    }

    /// Where the refusal is about a text: the octet, or the element's first octet.
    pub fn offset(self) -> Option<usize>
        ensures { result ≡ offset_of self }
    {
        match self {
            Refusal::TextLength | Refusal::BookFull | Refusal::NoRule => Some(0),
            Refusal::Malformed { offset }
            | Refusal::OverLimit { offset }
            | Refusal::NotAList { offset }
            | Refusal::UnknownSign { offset }
            | Refusal::NameLength { offset }
            | Refusal::WholeSegment { offset }
            | Refusal::OtherSign { offset }
            | Refusal::RuleLimit { offset }
            | Refusal::UnboundName { offset }
            | Refusal::NoNode { offset } => Some(offset),
            _ => None,
        }
    }
}

impl fmt::Display for Refusal {
    ghost use Rattle.std.specs.Prelude.{Some};
    ghost use Rattle.sexp.specs.Lines.{refusal_line};

    ghost output = { λ r. Some (refusal_line r) };

    fn fmt<W: fmt::Write>(&self, f: &mut fmt::Formatter<W>) -> fmt::Result {
        let number = self.number();
        match self.offset() {
            Some(offset) => write!(f, "refused {number} at {offset}"),
            None => write!(f, "refused {number}"),
        }
    }
}

impl Error for Refusal {}
