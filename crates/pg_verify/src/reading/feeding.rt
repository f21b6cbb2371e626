//! Bytes that are fed: lines are cut behind each LF, and what is left is kept until the next bytes come.

ghost use Rattle.std.specs.Prelude.{◌≡◌, ◌≢◌, ◌+◌, ◌-◌, ◌<◌, ◌≤◌, ◌++◌, ◌∷◌, ◌==◌, [], length, take, position, OnOk, IfSome, None, Ok};
ghost use Rattle.std.specs.List.{All};
ghost use Rattle.pg_verify.specs.declared.fault.VerifyFault.TheVariants.{Memory};
ghost use Rattle.pg_verify.specs.Taking.{after_line};
ghost use Rattle.pg_verify.specs.Feeding.{most_bytes, fed, finished, without_end, ended_line, lined, IsReportOf, IsAnswer};
ghost use Rattle.pg_verify.specs.Seen.{IsTold, IsFaultDue};

use super::Reading;
use crate::fault::VerifyFault;
use crate::opened::is_ended;
use pg_cert::Report;
use std::mem;

/// The most bytes of a certificate.
pub const CERT_BYTES: u32 = 268_435_456;

/// The place of the first LF.
fn place_of_lf(bytes: &[u8]) -> Option<usize>
    ensures { result ≡ position (λ c. c == 10) bytes.now }
{
    bytes.iter().position(|byte| *byte == b'\n')
}

impl<'m> Reading<'m> {
    /// The next line, of these bytes: what it leaves of how far the text has been fed.
    fn take_whole(&mut self, bytes: &[u8]) -> Result<(), VerifyFault>
        requires room { self.old.lines + length self.old.rest ≤ self.old.fed }
        ensures told { IsTold (after_line self.old bytes.now) self.new result }
        ensures fed { OnOk result (self.new.fed ≡ self.old.fed) }
        ensures lines { OnOk result (self.new.lines ≡ self.old.lines + 1) }
        ensures rest { OnOk result (self.new.rest ≡ self.old.rest) }
    {
        self.take_line(bytes)
    }

    /// Bytes with one LF, at their end: they end the line that was kept.
    fn take_piece(&mut self, piece: &[u8]) -> Result<(), VerifyFault>
        requires ends { piece.now ≡ take (length piece.now - 1) piece.now ++ 10 ∷ [] }
        requires once { All (λ c. c ≢ 10) (take (length piece.now - 1) piece.now) }
        requires within { self.old.fed + length piece.now ≤ most_bytes }
        requires room { self.old.lines + length self.old.rest ≤ self.old.fed }
        ensures told { IsTold (fed self.old piece.now) self.new result }
        ensures fed { OnOk result (self.new.fed ≡ self.old.fed + length piece.now) }
        ensures room { OnOk result (self.new.lines + length self.new.rest ≤ self.new.fed) }
    {
        if self.rest.is_empty() {
            self.fed += piece.len() as u32;
            return self.take_whole(piece);
        }
        self.rest.extend_from_slice(piece)?;
        self.fed += piece.len() as u32;
        let line = mem::replace(&mut self.rest, Vec::new(self.alloc));
        self.take_whole(line.as_slice())
    }

    /// Bytes without LF are kept.
    fn keep_bytes(&mut self, bytes: &[u8]) -> Result<(), VerifyFault>
        requires plain { All (λ c. c ≢ 10) bytes.now }
        requires within { self.old.fed + length bytes.now ≤ most_bytes }
        ensures told { IsTold (fed self.old bytes.now) self.new result }
        ensures fed { OnOk result (self.new.fed ≡ self.old.fed + length bytes.now) }
        ensures room { OnOk result (self.old.lines + length self.old.rest ≤ self.old.fed → self.new.lines + length self.new.rest ≤ self.new.fed) }
    {
        self.rest.extend_from_slice(bytes)?;
        self.fed += bytes.len() as u32;
        Ok(())
    }

    /// Bytes within the limit.
    fn feed_within(&mut self, bytes: &[u8]) -> Result<(), VerifyFault>
        requires within { self.old.fed + length bytes.now ≤ most_bytes }
        requires room { self.old.lines + length self.old.rest ≤ self.old.fed }
        ensures told { IsTold (fed self.old bytes.now) self.new result }
        ensures fed { OnOk result (self.new.fed ≡ self.old.fed + length bytes.now) }
        ensures room { OnOk result (self.new.lines + length self.new.rest ≤ self.new.fed) }
    {
        let mut left = bytes;
        while let Some(end) = place_of_lf(left) {
            let (piece, rest) = left.split_at(end + 1);
            match self.take_piece(piece) {
                Ok(()) => left = rest,
                Err(fault) => return Err(fault),
            }
        }
        self.keep_bytes(left)
    }

    /// The next bytes of the text. `Long` where there are more than 268,435,456 with them, and no line before was at fault.
    /// It costs the length of the bytes, beside what lines cost.
    pub fn feed(&mut self, bytes: &[u8]) -> Result<(), VerifyFault>
        requires room { self.old.lines + length self.old.rest ≤ self.old.fed }
        ensures told { IsTold (fed self.old bytes.now) self.new result }
        ensures room { OnOk result (self.new.lines + length self.new.rest ≤ self.new.fed) }
    {
        let room = (CERT_BYTES - self.fed) as usize;
        if bytes.len() <= room {
            return self.feed_within(bytes);
        }
        let (near, _) = bytes.split_at(room);
        match self.feed_within(near) {
            Ok(()) => Err(VerifyFault::Long),
            Err(fault) => Err(fault),
        }
    }

    /// Why bytes that are left, without LF, are no line.
    fn refuse_rest(&mut self) -> VerifyFault
        requires room { self.old.lines + length self.old.rest ≤ self.old.fed }
        requires some { self.old.rest ≢ [] }
        ensures { IsFaultDue (ended_line self.old self.old.rest) result }
    {
        let line = mem::replace(&mut self.rest, Vec::new(self.alloc));
        match self.take_whole(line.as_slice()) {
            Ok(()) => VerifyFault::Grammar(self.lines),
            Err(fault) => fault,
        }
    }

    /// Bytes left without LF are refused, as the line that they are; where there are none all is well.
    pub fn end_line(&mut self) -> Result<(), VerifyFault>
        requires room { self.old.lines + length self.old.rest ≤ self.old.fed }
        ensures told { IsTold (ended_line self.old self.old.rest) self.new result }
        ensures room { OnOk result (self.new.lines + length self.new.rest ≤ self.new.fed) }
    {
        if self.rest.is_empty() {
            return Ok(());
        }
        Err(self.refuse_rest())
    }

    /// The next bytes of the text, behind which a line ends.
    #[tactic(auto, unfolding(crate::specs::Feeding::lined))]
    pub fn take_lined(&mut self, bytes: &[u8]) -> Result<(), VerifyFault>
        requires room { self.old.lines + length self.old.rest ≤ self.old.fed }
        ensures told { IsTold (lined self.old bytes.now) self.new result }
        ensures room { OnOk result (self.new.lines + length self.new.rest ≤ self.new.fed) }
    {
        self.feed(bytes)?;
        self.end_line()
    }

    /// Why a text is refused that ends before its last line.
    #[tactic(auto, unfolding(crate::specs::Taking::after_form))]
    fn refuse_end(&mut self) -> VerifyFault
        requires room { self.old.lines + length self.old.rest ≤ self.old.fed }
        ensures { IsFaultDue (without_end self.old) result }
    {
        self.lines += 1;
        let line = self.lines;
        match self.take_end() {
            Ok(()) => VerifyFault::Grammar(line),
            Err(fault) => fault,
        }
    }

    /// Why the text is refused where no byte comes any more, if it is.
    fn refuse_finish(&mut self) -> Option<VerifyFault>
        requires room { self.old.lines + length self.old.rest ≤ self.old.fed }
        ensures fault { IfSome result (λ f. IsFaultDue (finished self.old) f) }
        ensures whole { result ≡ None → finished self.old ≡ Ok self.old }
        ensures kept { result ≡ None → self.new ≡ self.old }
    {
        if !self.rest.is_empty() {
            return Some(self.refuse_rest());
        }
        if !is_ended(&self.opened) {
            return Some(self.refuse_end());
        }
        None
    }

    /// The report of what was read.
    fn report(self) -> Report
        ensures { IsReportOf self.entry result }
    {
        let Reading { family, marks, .. } = self;
        Report { family, marks }
    }

    /// No byte comes any more: the report of the text, or why it is refused.
    pub fn finish(mut self) -> Result<Report, VerifyFault>
        requires room { self.lines + length self.rest ≤ self.fed }
        ensures { IsAnswer (finished self.entry) result }
    {
        match self.refuse_finish() {
            Some(fault) => Err(fault),
            None => Ok(self.report()),
        }
    }
}
