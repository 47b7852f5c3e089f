//! What the record holds.
ghost use Rattle.std.specs.Prelude.{◌≡◌, codes};
ghost use Rattle.sexp.specs.Elements.{none, list};
ghost use Rattle.sexp.specs.Reading.{verdict, accepted};
ghost use Rattle.texts.specs.Filled.{Fills, HoldsWhatIsRead};

use super::TextRecord;
use sexp::reader::check;
use sexp::refusals::Refusal;

impl<'a> TextRecord<'a> {
    /// The empty list.
    pub fn new() -> TextRecord<'a>
        ensures text { result.text.now ≡ codes "()" }
        ensures empty { verdict result.text.now ≡ accepted (list none none) }
    {
        TextRecord { text: b"()" }
    }

    /// Takes a text that the check accepts in place of the one held. Another is refused as the
    /// check has it, and the record stays as it was.
    #[tactic(auto, using(crate::proofs::Standing::holds))]
    pub fn fill(&mut self, text: &'a [u8]) -> Result<(), Refusal>
        ensures taken { Fills text.now self.old.text.now self.new.text.now result }
        ensures meant { HoldsWhatIsRead self.new.text.now }
    {
        check(text)?;
        self.text = text;
        Ok(())
    }
}

#[cfg(test)]
mod tests {
    use crate::record::TextRecord;
    use holder::copying::copy_out;
    use sexp::refusals::Refusal;

    #[test]
    fn a_held_text_is_copied_out_and_a_refused_one_is_not_taken(rt: HostRuntime) {
        let mut record = TextRecord::new();
        let mut output = [0; 64];
        assert_eq!(rt; copy_out(&record, &mut output), Ok(2));
        assert_eq!(rt; &output[..2], b"()".as_slice());
        let text = b"(4:tank1:7(0:()(2:ph))3:a:b)";
        assert_eq!(rt; record.fill(text), Ok(()));
        assert_eq!(rt; record.fill(b"(1:a"), Err(Refusal::Malformed { offset: 4 }));
        assert_eq!(rt; copy_out(&record, &mut output), Ok(28));
        assert_eq!(rt; &output[..28], text.as_slice());
    }
}
