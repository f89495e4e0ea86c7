//! What is the same for every kind of lines: writing a record, and checks 3 to 8.
ghost use Rattle.fault.specs.Checks.{result_map};
ghost use Rattle.line.specs.Forms.{Form as FormOf, shaped as shaped_in, line as line_in, text as text_in, tag_at as tag_at_in, size_of, size_in, fields_in, checked as checked_in, read as read_by, read_inside as read_inside_by, text_written as text_written_in, text_memory as text_memory_in, line_written as line_written_in, line_memory as line_memory_in};
ghost use Rattle.line.specs.Laws.{ComesBack, EndsAtTag, IsWritten, Shows};
ghost use Rattle.line.specs.lemmas.FormsKept.{comes_back as comes_back_by, is_written as is_written_by, ends_at_tag as ends_at_tag_by};
ghost use Rattle.line.specs.Rules.{sized};
ghost use Rattle.std.specs.Prelude.{◌≡◌, ℕ, ◌+◌, ◌^◌, ◌<◌, ◌≤◌, ◌++◌, true, length, take, drop, OnOk};

use crate::layout::*;
use crate::taken::Taken;
use fault::{Fault, Reason};

/// The form of one kind: how its record lies in a line.
// Seven impls of one shape: what differs is which fields a kind has, fields have names, and an impl that a macro of our own writes is refused.
pub(crate) trait Form: Copy {
    /// What a line of the kind says.
    ghost Model: { Type 0 };

    /// What the record shows.
    ghost shown: { Self → Model };

    /// The kind.
    ghost form: { FormOf Model };

    /// The parts of the text have their widths.
    fn text_shaped(&self) -> bool
        ensures { result ≡ form.text_shaped (shown self.now) };

    /// Where the tag begins, behind the text.
    fn tag_at(&self) -> usize
        ensures value { result ≡ tag_at_in form (form.count (shown self.now)) }
        ensures few { result < 2 ^ 32 };

    /// The sender.
    fn sender(&self) -> u16
        ensures { result ≡ form.sender (shown self.now) };

    /// The tag.
    fn tag(&self) -> &[u8]
        ensures { result.now ≡ form.tag (shown self.now) };

    /// Fills memory of just its size with the text.
    fn fill(&self, out: &mut [u8])
        requires shape { form.text_shaped (shown self.now) ≡ true }
        requires room { length out.old ≡ tag_at_in form (form.count (shown self.now)) }
        ensures { out.new ≡ text_in form (shown self.now) };

    /// What the kind shows of its form, for the laws of lines.
    ghost kept: { Shows form };
}

/// How the record of one kind is read from the bytes of a line, in which its parts lie.
pub(crate) trait FromLine<'a>: Form {
    /// Checks 5 to 8 on the line itself.
    fn check_itself(line: &Taken<'a>) -> Result<(), Fault>
        ensures checks { result ≡ checked_in Self.form line.now.pit line.now.at line.now.bytes.now }
        ensures size { OnOk result (length line.now.bytes.now ≡ size_in Self.form line.now.pit) };

    /// Checks 3 to 8 on the lines inside.
    // Five kinds have none and say so: a body given here would have to be right for every form.
    fn check_inside(line: &Taken<'a>) -> Result<(), Fault>
        requires { length line.now.bytes.now ≡ size_in Self.form line.now.pit }
        ensures { result ≡ Self.form.inside line.now.pit line.now.at line.now.bytes.now };

    /// What the bytes say.
    fn of(line: &Taken<'a>) -> Self
        requires { length line.now.bytes.now ≡ size_in Self.form line.now.pit }
        ensures { Self.shown result ≡ fields_in Self.form line.now.pit line.now.bytes.now };
}

/// What a line of one kind says.
// Beside `Form`, whose methods ask something of their callers: what other crates can reach asks nothing.
pub trait Record {
    /// What a line of the kind says.
    ghost Model: { Type 0 };

    /// What the record shows.
    ghost shown: { Self → Model };

    /// The kind.
    ghost form: { FormOf Model };

    /// The sender.
    fn sender(&self) -> u16
        ensures { result ≡ form.sender (shown self.now) };

    /// The tag.
    fn tag(&self) -> &[u8]
        ensures { result.now ≡ form.tag (shown self.now) };

    /// Writes the text into the front of the memory, and answers its size.
    fn write_text(&self, out: &mut [u8]) -> Result<usize, Fault>
        ensures answer { result ≡ text_written_in form (shown self.now) out.old }
        ensures after { out.new ≡ text_memory_in form (shown self.now) out.old };

    /// Writes the line into the front of the memory, and answers its size.
    fn write(&self, out: &mut [u8]) -> Result<usize, Fault>
        ensures answer { result ≡ line_written_in form (shown self.now) out.old }
        ensures after { out.new ≡ line_memory_in form (shown self.now) out.old };

    /// A record that passes checks 3 to 8, written and read, comes back.
    ghost comes_back: { ComesBack form };

    /// A line that reads is the line that its record writes, and its record passes.
    ghost is_written: { IsWritten form };

    /// A text whose parts have their widths ends where its tag begins.
    ghost ends_at_tag: { EndsAtTag form };
}

impl<F: Form> Record for F {
    ghost Model = { F.Model };

    ghost shown = { F.shown };

    ghost form = { F.form };

    ghost comes_back = { comes_back_by F.form F.kept };

    ghost is_written = { is_written_by F.form F.kept };

    ghost ends_at_tag = { ends_at_tag_by F.form F.kept };

    fn sender(&self) -> u16 {
        Form::sender(self)
    }

    fn tag(&self) -> &[u8] {
        Form::tag(self)
    }

    fn write_text(&self, out: &mut [u8]) -> Result<usize, Fault> {
        let tag_at = self.tag_at();
        if !self.text_shaped() || out.len() < tag_at {
            return Err(Fault::of(Reason::Room));
        }
        self.fill(&mut out[0..tag_at]);
        Ok(tag_at)
    }

    fn write(&self, out: &mut [u8]) -> Result<usize, Fault> {
        let size = self.tag_at() + TAG_WIDTH;
        if !is_shaped(self) || out.len() < size {
            return Err(Fault::of(Reason::Room));
        }
        put_line(self, &mut out[0..size], 0);
        Ok(size)
    }
}

/// The parts of the line have their widths.
pub(crate) fn is_shaped<F: Form>(line: &F) -> bool
    ensures { result ≡ shaped_in F.form (F.shown line.now) }
{
    line.text_shaped() && line.tag().len() == TAG_WIDTH
}

/// Puts the line behind what is written, and answers where it ends.
// Inlined: as a call of its own it doubled what writing an ORDER takes.
#[inline(always)]
pub(crate) fn put_line<F: Form>(line: &F, out: &mut [u8], at: usize) -> usize
    requires shape { shaped_in F.form (F.shown line.now) ≡ true }
    requires room { at + size_of F.form (F.form.count (F.shown line.now)) ≤ length out.old }
    ensures end { result ≡ at + size_of F.form (F.form.count (F.shown line.now)) }
    ensures front { take result out.new ≡ take at out.old ++ line_in F.form (F.shown line.now) }
    ensures behind { drop result out.new ≡ drop result out.old }
{
    let end = at + line.tag_at();
    line.fill(&mut out[at..end]);
    put(out, end, line.tag())
}

/// Reads the line of the kind that the bytes are.
pub(crate) fn read<'a, F: FromLine<'a>>(line: &Taken<'a>) -> Result<F, Fault>
    ensures { result_map F.shown result ≡ read_by F.form line.now.pit line.now.at line.now.bytes.now }
{
    F::check_itself(line)?;
    F::check_inside(line)?;
    Ok(F::of(line))
}

/// Reads the line inside another: it must tell its own size and kind first.
pub(crate) fn read_inner<'a, F: FromLine<'a>>(kind: u16, line: &Taken<'a>) -> Result<F, Fault>
    requires { kind ≡ F.form.kind }
    ensures { result_map F.shown result ≡ read_inside_by F.form line.now.pit line.now.at line.now.bytes.now }
{
    line.check_inner(kind)?;
    read(line)
}
