//! Where the rules of a book lie.
use texts::record::TextRecord;

/// Where the pattern and the template of a rule lie in a text.
#[derive(Clone, Copy)]
pub struct PlacedRule<'a> {
    pub text: TextRecord<'a>,
    pub pattern: u32,
    pub template: u32,
}
