//! A CALL that was heard: a tablet sent it, and its parts have their widths.
ghost use Rattle.lead.specs.Leading.{client_of, outdated};
ghost use Rattle.line.specs.CallLine.{shaped, shown, text};
ghost use Rattle.line.specs.SetUp.{is_client};
ghost use Rattle.std.specs.Prelude.{◌≡◌, ◌<◌, true};

use crate::{BODY_SIZE, Row};
use line::call;
use line::call::Call;
use line::pit::FIRST_CLIENT;
use line::record::Record;

/// A CALL that passed its checks.
#[derive(Clone, Copy)]
pub(crate) struct Heard<'a> {
    pub(crate) call: Call<'a>,
    ghost client: { is_client call.sender ≡ true },
    ghost whole: { shaped (shown call) ≡ true },
}

impl Heard<'_> {
    /// The tablet's place among the rows.
    pub(crate) fn client(&self) -> usize
        ensures index { result ≡ client_of (shown self.now.call) }
        ensures below { result < 16 }
    {
        (self.call.sender - FIRST_CLIENT) as usize
    }

    /// The body by itself.
    pub(crate) fn body(&self) -> [u8; BODY_SIZE]
        ensures { result ≡ (shown self.now.call).body }
    {
        <[u8; BODY_SIZE]>::try_from(self.call.body).unwrap()
    }

    /// The bytes that are linked.
    pub(crate) fn text(&self) -> [u8; call::TAG_AT]
        ensures { result ≡ text (shown self.now.call) }
    {
        let mut text = [0; call::TAG_AT];
        self.call.write_text(&mut text).unwrap();
        text
    }

    /// Whether the stamp is below the tablet's last, or equal with another body.
    pub(crate) fn is_outdated(&self, row: &Row) -> bool
        ensures { result ≡ outdated row.now (shown self.now.call) }
    {
        let call = &self.call;
        call.stamp <= row.stamp && !(call.stamp == row.stamp && call.body == row.body.as_slice())
    }
}
