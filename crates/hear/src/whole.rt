//! A line whose parts have their widths, and the seal's word on its own tag.
ghost use Rattle.fault.specs.declared.Reason.TheVariants.{Tag};
ghost use Rattle.hear.specs.Vouchers.{admitted, own};
ghost use Rattle.std.specs.Prelude.{◌≡◌, ◌∷◌, [], true};

use crate::check_tag;
use fault::{Fault, Reason};
use line::record::Record;
use seal::{LONGEST_TEXT, Seal};

/// A line whose parts have their widths.
#[derive(Drop)]
pub(crate) struct Whole<'l, R: Record> {
    pub(crate) line: &'l R,
    ghost whole: { R.form.text_shaped (R.shown line.now) ≡ true },
}

impl<R: Record> Whole<'_, R> {
    /// Asks for the line's own tag, where it begins at that byte. No seal accepts a longer text than it stamps.
    pub(crate) fn check<S: Seal>(&self, seal: &S, at: usize) -> Result<(), Fault>
        ensures { result ≡ admitted (S.meaning seal.now) (own R.form at (R.shown self.now.line.now) ∷ []) }
    {
        let mut text = [0; LONGEST_TEXT];
        let line = self.line;
        let size = line
            .write_text(&mut text)
            .map_err(|_| Fault::at(Reason::Tag, at))?;
        check_tag(seal, line.sender(), &text[0..size], line.tag(), at)
    }
}
