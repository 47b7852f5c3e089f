//! The least key of a fit of a book and a record.
ghost use Rattle.std.specs.Prelude.{◌≤◌, length};
ghost use Rattle.holder.specs.Copies.{record_of};
ghost use Rattle.search.specs.Least.{LeastAfter};
ghost use Rattle.search.specs.Books.{LeastPast};
ghost use Rattle.fitting.specs.Moves.{position_of};
ghost use Rattle.fitting.specs.Finding.{pattern_at};
ghost use Rattle.fitting.specs.Keys.{position_past, key_told, RuleLies};

use crate::marks::Mark;
use crate::searching::{Lengths, least};
use crate::trails::Trail;
use books::books::Book;
use books::places::PlacedRule;
use holder::holding::Holder;

/// A fit's key: the number of its rule, and the lengths of the segments.
#[derive(Clone, Copy, PartialEq, Eq, Debug)]
pub(crate) struct Key {
    pub(crate) rule: usize,
    pub(crate) lengths: Lengths,
}

// The least lengths of a fit of a rule and a record, behind these ones or of all.
fn least_of<H: Holder>(
    rule: PlacedRule<'_>,
    holder: &H,
    marks: &mut [Mark],
    places: &mut [u32],
    behind: Option<Lengths>,
) -> Option<Lengths>
    requires rule { RuleLies rule }
    requires marks { 256 ≤ length marks.old }
    requires places { 256 ≤ length places.old }
    ensures { let held = record_of (H.meaning holder.now) in
        LeastAfter (pattern_at rule.entry.text.text.now rule.entry.pattern) held (position_of behind) result }
{
    let trail = Trail::new(marks, places);
    least(rule.text, rule.pattern, holder, trail, behind)
}

/// The least key of a fit of a book and a record, behind a key or of all.
pub(crate) fn next_key<H: Holder>(
    book: &Book<'_>,
    holder: &H,
    marks: &mut [Mark],
    places: &mut [u32],
    behind: Option<Key>,
) -> Option<Key>
    requires marks { 256 ≤ length marks.old }
    requires places { 256 ≤ length places.old }
    ensures { LeastPast book.now (record_of (H.meaning holder.now)) (position_past behind) (key_told result) }
{
    // No rule has the number 0, so every rule is behind a key with it.
    let (mut number, mut lengths) = match behind {
        Some(key) if key.rule > 0 => (key.rule, Some(key.lengths)),
        _ => (1, None),
    };
    while let Some(rule) = book.rule(number) {
        if let Some(lengths) = least_of(rule, holder, marks, places, lengths) {
            return Some(Key {
                rule: number,
                lengths,
            });
        }
        number += 1;
        lengths = None;
    }
    None
}

#[cfg(test)]
mod tests {
    use super::*;
    use books::drafts::Draft;
    use texts::record::TextRecord;

    #[test]
    fn goes_through_the_keys(rt: HostRuntime) {
        let mut draft = Draft::new();
        assert!(rt; draft.begin(b"(((2:!x2:!y)(2:!x))(2::x2::x))").is_ok());
        assert_eq!(rt; draft.take(), Ok(1));
        assert_eq!(rt; draft.take(), Ok(2));
        let book = draft.close();
        let mut record = TextRecord::new();
        assert!(rt; record.fill(b"(1:a)").is_ok());
        let mut marks = [Mark::unused(); 256];
        let mut places = [0; 256];
        let mut behind = Some(Key {
            rule: 0,
            lengths: [7; 4],
        });
        for (rule, lengths) in [(1, [0, 1, 0, 0]), (1, [1, 0, 0, 0]), (2, [0; 4])] {
            behind = next_key(&book, &record, &mut marks, &mut places, behind);
            assert_eq!(rt; behind, Some(Key { rule, lengths }));
        }
        behind = next_key(&book, &record, &mut marks, &mut places, behind);
        assert_eq!(rt; behind, None);
    }
}
