//! The laws of lines, each the contract of a function, so that a build without their proofs fails.

#![tactic(auto)]

ghost use Rattle.line.specs.Laws.{ComesBack as KindComesBack, IsWritten as KindIsWritten};
ghost use Rattle.line_laws.specs.Laws.{ComesBack, IsWritten, TextTells, SetUps};

use line::record::Record;

/// The two laws of a kind, as its trait has them: every record that passes checks 3 to 8, written and read, comes back; and a
/// line that reads is the line that its record writes.
pub fn kind_laws_hold<R: Record>()
    ensures comes_back { KindComesBack R.form }
    ensures is_written { KindIsWritten R.form }
{}

/// Every record that passes the checks, written and read, comes back; every line that reads is the line that its record
/// writes; and two records with one text are the same record, whatever their tags.
pub fn laws_hold()
    ensures comes_back { ComesBack }
    ensures is_written { IsWritten }
    ensures text_tells { TextTells }
{}

/// No or four lying boxes are refused; view 7 is led by box 3 of four boxes, and by box 0 of seven; place 1,000,000 is in range
/// and 1,000,001 is not.
pub fn set_ups_hold()
    ensures { SetUps }
{}
