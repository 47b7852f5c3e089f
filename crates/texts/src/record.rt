//! An accepted text, walked in place: the place of an element is the offset of its first octet.
ghost use Rattle.std.specs.Prelude.{◌≡◌, true};
ghost use Rattle.sexp.specs.Reading.{verdict};
ghost use Rattle.texts.specs.Label.{accepts};

/// A borrowed text that the check accepts; the record is read from it when it is asked for.
#[derive(Clone, Copy)]
pub struct TextRecord<'a> {
    text: &'a [u8],
    ghost ok: { accepts (verdict text.now) ≡ true },
}

mod answers;
mod filling;
mod walking;
