//! Where a record comes from, and what holds it.

/// A record as it is named at the command line.
#[derive(Clone, Copy)]
pub(crate) enum Source<'a> {
    /// The text in a file, walked in place.
    Text(&'a str),
    /// The text in a file, loaded into nodes.
    Table(&'a str),
    /// The numbers in a file, one a line.
    Readings(&'a str),
}

impl<'a> Source<'a> {
    /// What a name stands for: a file of a text, unless it begins with the way that it is held.
    pub(crate) fn named(name: &'a str) -> Source<'a> {
        if let Some(path) = name.strip_prefix("text:") {
            Source::Text(path)
        } else if let Some(path) = name.strip_prefix("table:") {
            Source::Table(path)
        } else if let Some(path) = name.strip_prefix("readings:") {
            Source::Readings(path)
        } else {
            Source::Text(name)
        }
    }
}
