//! Hearing: a line is taken only where a seal accepts every tag in it.

#![tactic(auto)]

ghost use Rattle.fault.specs.Checks.{result_map, check as check_is};
ghost use Rattle.fault.specs.declared.Reason.TheVariants.{Tag};
ghost use Rattle.hear.specs.Vouchers.{admitted, own, vouchers, order_vouchers, charge_vouchers, answer_vouchers, entry_vouchers, cert_vouchers, heard};
ghost use Rattle.line.specs.CertLine.{shown as cert_shown, entry_at, entry_answer};
ghost use Rattle.line.specs.ChargeLine.{shown as charge_shown};
ghost use Rattle.line.specs.Lines.{line_shown, text_shaped as shaped_line};
ghost use Rattle.line.specs.OrderLine.{shown as order_shown};
ghost use Rattle.std.specs.Prelude.{◌≡◌, ◌+◌, ◌^◌, ◌<◌, ◌∷◌, [], true};

mod whole;

use crate::whole::Whole;
use fault::{Fault, Reason};
use line::cert::Cert;
use line::charge::Charge;
use line::kind::Kind;
use line::lines::Line;
use line::order::Order;
use line::pit::Pit;
use line::{cert, charge, lines, order};
use seal::Seal;

/// Asks the seal for one tag; a tag that it does not accept is refused at that byte.
pub(crate) fn check_tag<S: Seal>(
    seal: &S,
    party: u16,
    text: &[u8],
    tag: &[u8],
    at: usize,
) -> Result<(), Fault>
    ensures { result ≡ check_is ((S.meaning seal.now).accepts party text.now tag.now) Tag at }
{
    if !seal.check(party, text, tag) {
        return Err(Fault::at(Reason::Tag, at));
    }
    Ok(())
}

// ORDER, CERT and CHARGE stay three functions: after its own tag, each asks for what it alone has inside.

/// Asks for the tags of an ORDER that begins at that byte: its own, then its CALL's.
fn check_order<S: Seal>(seal: &S, order: &Whole<Order>, at: usize) -> Result<(), Fault>
    requires { at < 2 ^ 32 }
    ensures { result ≡ admitted (S.meaning seal.now) (order_vouchers at (order_shown order.now.line.now)) }
{
    let Order { call, .. } = order.line;
    order.check(seal, at)?;
    Whole { line: call }.check(seal, at + order::CALL_AT)
}

// An entry is known by its number. With `try_for_each` over the numbers, it stayed open that the run of calls is the vouchers in turn.

/// Asks for the tags of a CERT's entries: each is that of the ANSWER that the box gave.
fn check_entries<S: Seal>(seal: &S, cert: &Whole<Cert>) -> Result<(), Fault>
    ensures { result ≡ admitted (S.meaning seal.now) (entry_vouchers (cert_shown cert.now.line.now) 0 cert.now.line.now.count) }
{
    for i in 0..cert.line.count {
        check_entry(seal, cert, i)?;
    }
    Ok(())
}

/// Asks for the tag of one entry of a CERT.
fn check_entry<S: Seal>(seal: &S, cert: &Whole<Cert>, i: u16) -> Result<(), Fault>
    requires { i < cert.now.line.now.count }
    ensures { result ≡ admitted (S.meaning seal.now) (answer_vouchers (entry_at i) (entry_answer (cert_shown cert.now.line.now) i)) }
{
    let at = cert::ENTRIES_AT + cert::ENTRY_SIZE * i as usize;
    let answer = cert.line.answer(i).ok_or(Fault::at(Reason::Tag, at))?;
    Whole { line: &answer }.check(seal, at)
}

/// Asks for the tags of a CERT: its own, then its entries'.
fn check_cert<S: Seal>(seal: &S, cert: &Whole<Cert>) -> Result<(), Fault>
    ensures { result ≡ admitted (S.meaning seal.now) (cert_vouchers (cert_shown cert.now.line.now)) }
{
    cert.check(seal, 0)?;
    check_entries(seal, cert)
}

/// Asks for the tags of a CHARGE: its own, then its ORDERs' in turn.
fn check_charge<S: Seal>(seal: &S, charge: &Whole<Charge>) -> Result<(), Fault>
    ensures { result ≡ admitted (S.meaning seal.now) (charge_vouchers (charge_shown charge.now.line.now)) }
{
    let Charge { first, second, .. } = charge.line;
    charge.check(seal, 0)?;
    check_order(seal, &Whole { line: first }, charge::FIRST_AT)?;
    check_order(seal, &Whole { line: second }, charge::SECOND_AT)
}

/// Asks for every tag in a line, in turn.
fn check_line<S: Seal>(seal: &S, line: &Line) -> Result<(), Fault>
    requires { shaped_line (line_shown line.now) ≡ true }
    ensures { result ≡ admitted (S.meaning seal.now) (vouchers (line_shown line.now)) }
{
    match line {
        Line::Call(call) => Whole { line: call }.check(seal, 0),
        Line::Order(order) => check_order(seal, &Whole { line: order }, 0),
        Line::Answer(answer) => Whole { line: answer }.check(seal, 0),
        Line::Cert(cert) => check_cert(seal, &Whole { line: cert }),
        Line::Committed(committed) => Whole { line: committed }.check(seal, 0),
        Line::Sheet(sheet) => Whole { line: sheet }.check(seal, 0),
        Line::Charge(charge) => check_charge(seal, &Whole { line: charge }),
    }
}

/// Reads any bytes as a line of this pit, of a kind that is taken, whose every tag the seal accepts.
pub fn hear<'a, S: Seal>(
    pit: &Pit,
    taken: &[Kind],
    seal: &S,
    bytes: &'a [u8],
) -> Result<Line<'a>, Fault>
    ensures { result_map line_shown result ≡ heard pit.now taken.now (S.meaning seal.now) bytes.now }
{
    let line = lines::read(pit, taken, bytes)?;
    check_line(seal, &line)?;
    Ok(line)
}
