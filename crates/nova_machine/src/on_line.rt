// What units want of lines, the console line among them.
ghost use Rattle.std.specs.Prelude.{◌≡◌, Bool, ℕ, map, List, Option, None, IfSome, is_some, option_map, if◌then◌else◌};
ghost use Rattle.host_lines.specs.Traffic.{Answer};
ghost use Rattle.host_lines.specs.Told.{IsFirst, record_in, ahead_of};
ghost use Rattle.host_lines.specs.State.{LineState};
ghost use Rattle.telnet_lines.specs.Line.{IsSettled, is_full};
ghost use Rattle.telnet_lines.specs.Joined.{seen_line};
ghost use Rattle.expect_actions.specs.KeysFile.{due_key};
ghost use Rattle.expect_actions.specs.Sends.{due_send};
ghost use Rattle.expect_actions.specs.Expects.{ExpectTable, match_at, after_printed};
ghost use Rattle.unit_list.specs.Bus.{IsBelowEnd};
ghost use Rattle.unit_trait.specs.declared.calls.Want.TheVariants as wants;
ghost use Rattle.nova_machine.specs.declared.machine.Stop.TheVariants.{Expect};
ghost use Rattle.nova_machine.specs.Wants.{first_key, got_of_key, key_stop};
ghost use Rattle.nova_machine.specs.OnLines.{lined, around_at, got_of_line, put_line, put_got, is_ported, IsOfLine, IsOfPoll};
ghost use Rattle.nova_machine.specs.OnLine.{got_on, stop_on, expects_on, IsKeyDone, IsByteDone, IsDoneOn, IsOffLine, is_off_line};
ghost use Rattle.nova_machine.specs.LineChanges.{AreLinesTold, LinesGoOn, DoneOnLine, DoneAs};

use crate::machine::Machine;
use crate::service::WRU;
use expect_actions::{Keys, Sends, Watch};
use host_lines::Lines;
use telnet_lines::{Line, LineFull};
use unit_trait::{Got, Unit, Want};

/// What was done on a line.
#[derive(Clone, Copy)]
pub(crate) enum OnLine {
    /// The unit gets that answer.
    Gets(Got),
    /// The key that stops a run was taken: the unit gets no key.
    Wru,
    /// That byte was put on the console line, where it may end a text that is waited for: the unit is done.
    Put(u8),
}

impl<U: Unit> Machine<U> {
    /// Does what a unit wants of a line that is there, or of the console line where that has a port; answers what was
    /// done, or none, where it wants nothing of one, and then nothing has changed.
    #[inline(always)]
    pub(crate) fn on_line<L: Lines>(
        &mut self,
        want: Want,
        watch: &Watch,
        keys: &Keys,
        lines: &mut L,
    ) -> Option<OnLine>
        ensures machine { self.new ≡ record self.old { lines = self.new.lines } }
        ensures lines { LinesGoOn L.tells (L.state lines.old) self.old.lines (L.state lines.new) self.new.lines }
        ensures told { AreLinesTold L.tells (L.state lines.old) self.old.lines
            → (whole : List Answer) → IsFirst (record_in (L.state lines.new).told) whole
            → DoneAs (lined want (around_at self.old.time
            (first_key (due_send self.old.time watch.now.sends) (due_key keys.now self.old.taken self.old.time))
            watch.now.expects (map (seen_line (L.state lines.old)) self.old.lines)
            (ahead_of (L.state lines.old).told whole))) result watch.now.expects whole (L.state lines.old)
            (L.state lines.new) self.new.lines }
        ensures none { result ≡ None → (self.new ≡ self.old) × (lines.new ≡ lines.old) }
        ensures below { IfSome result (λ made. IsBelowEnd want (got_on made)) }
        ensures of { IfSome result (λ made. IsOfLine (got_on made)) }
        ensures wants { IfSome result (λ made. IsDoneOn want (is_ported self.old.lines)
            (first_key (due_send self.old.time watch.now.sends) (due_key keys.now self.old.taken self.old.time)) made) }
        ensures off { result ≡ None → IsOffLine want (is_ported self.old.lines)
            (first_key (due_send self.old.time watch.now.sends) (due_key keys.now self.old.taken self.old.time)) }
    {
        // Most wants are for no line, and cost this test alone.
        if self.is_off_line(want) {
            return None;
        }
        self.work_on_line(want, watch, keys, lines)
    }

    /// Whether a unit wants nothing of a line: neither of a terminal line, nor of the console line where that has a
    /// port.
    #[inline(always)]
    fn is_off_line(&self, want: Want) -> bool
        ensures { result ≡ is_off_line want (is_ported self.now.lines) }
    {
        match want {
            Want::LineKey(_) | Want::LinePut { line: _, byte: _ } => false,
            Want::Key | Want::Console(_) => !self.is_console_ported(),
            Want::Nothing
            | Want::ReadByte { place: _ }
            | Want::WriteByte { place: _, byte: _ }
            | Want::Sector {
                write: _,
                sector: _,
                address: _,
            }
            | Want::Tape(_) => true,
        }
    }

    /// The same, whatever it wants.
    fn work_on_line<L: Lines>(
        &mut self,
        want: Want,
        watch: &Watch,
        keys: &Keys,
        lines: &mut L,
    ) -> Option<OnLine>
        ensures machine { self.new ≡ record self.old { lines = self.new.lines } }
        ensures lines { LinesGoOn L.tells (L.state lines.old) self.old.lines (L.state lines.new) self.new.lines }
        ensures told { AreLinesTold L.tells (L.state lines.old) self.old.lines
            → (whole : List Answer) → IsFirst (record_in (L.state lines.new).told) whole
            → DoneAs (lined want (around_at self.old.time
            (first_key (due_send self.old.time watch.now.sends) (due_key keys.now self.old.taken self.old.time))
            watch.now.expects (map (seen_line (L.state lines.old)) self.old.lines)
            (ahead_of (L.state lines.old).told whole))) result watch.now.expects whole (L.state lines.old)
            (L.state lines.new) self.new.lines }
        ensures none { result ≡ None → (self.new ≡ self.old) × (lines.new ≡ lines.old) }
        ensures below { IfSome result (λ made. IsBelowEnd want (got_on made)) }
        ensures of { IfSome result (λ made. IsOfLine (got_on made)) }
        ensures wants { IfSome result (λ made. IsDoneOn want (is_ported self.old.lines)
            (first_key (due_send self.old.time watch.now.sends) (due_key keys.now self.old.taken self.old.time)) made) }
        ensures off { result ≡ None → IsOffLine want (is_ported self.old.lines)
            (first_key (due_send self.old.time watch.now.sends) (due_key keys.now self.old.taken self.old.time)) }
    {
        match want {
            Want::LineKey(number) => match self.key_of_line(number, lines) {
                Some(got) => Some(OnLine::Gets(got)),
                None => None,
            },
            Want::LinePut { line, byte } => match self.put_on_line(line, byte) {
                Some(got) => Some(OnLine::Gets(got)),
                None => None,
            },
            Want::Key => self.key_of_console(watch, keys, lines),
            Want::Console(byte) => self.put_on_console(byte),
            Want::Nothing
            | Want::ReadByte { place: _ }
            | Want::WriteByte { place: _, byte: _ }
            | Want::Sector {
                write: _,
                sector: _,
                address: _,
            }
            | Want::Tape(_) => None,
        }
    }

    /// Takes the key of one poll of that line, where it is there.
    pub(crate) fn key_of_line<L: Lines>(&mut self, number: u8, lines: &mut L) -> Option<Got>
        ensures machine { self.new ≡ record self.old { lines = self.new.lines } }
        ensures lines { LinesGoOn L.tells (L.state lines.old) self.old.lines (L.state lines.new) self.new.lines }
        ensures told { AreLinesTold L.tells (L.state lines.old) self.old.lines
            → (whole : List Answer) → IsFirst (record_in (L.state lines.new).told) whole
            → (due : Option ℕ) (expects : ExpectTable)
            → DoneOnLine (lined (wants.LineKey number) (around_at self.old.time due expects
            (map (seen_line (L.state lines.old)) self.old.lines) (ahead_of (L.state lines.old).told whole)))
            result whole (L.state lines.old) (L.state lines.new) self.new.lines }
        ensures none { result ≡ None → (self.new ≡ self.old) × (lines.new ≡ lines.old) }
        ensures below { IfSome result (λ got. IsBelowEnd (wants.LineKey number) got) }
        ensures of { IfSome result IsOfLine }
        ensures poll { IfSome result IsOfPoll }
    {
        if number as usize >= self.lines.len() {
            return None;
        }
        let time = self.time;
        let key = self.lines[number as usize].poll(lines, time);
        Some(got_of(key))
    }

    /// Puts a byte on that line, where it is there.
    fn put_on_line(&mut self, number: u8, byte: u8) -> Option<Got>
        ensures machine { self.new ≡ record self.old { lines = self.new.lines } }
        ensures lines { (tells : Bool) (s : LineState) → LinesGoOn tells s self.old.lines s self.new.lines }
        ensures told { (s : LineState) (whole : List Answer) (due : Option ℕ) (expects : ExpectTable)
            → DoneOnLine (lined (wants.LinePut number byte) (around_at self.old.time due expects
            (map (seen_line s) self.old.lines) (ahead_of s.told whole))) result whole s s self.new.lines }
        ensures none { result ≡ None → self.new ≡ self.old }
        ensures below { IfSome result (λ got. IsBelowEnd (wants.LinePut number byte) got) }
        ensures of { IfSome result IsOfLine }
    {
        if number as usize >= self.lines.len() {
            return None;
        }
        Some(put_on(&mut self.lines[number as usize], byte))
    }

    /// Takes the key of one poll of the console line, where that has a port and no other key is due.
    fn key_of_console<L: Lines>(
        &mut self,
        watch: &Watch,
        keys: &Keys,
        lines: &mut L,
    ) -> Option<OnLine>
        ensures machine { self.new ≡ record self.old { lines = self.new.lines } }
        ensures lines { LinesGoOn L.tells (L.state lines.old) self.old.lines (L.state lines.new) self.new.lines }
        ensures told { AreLinesTold L.tells (L.state lines.old) self.old.lines
            → (whole : List Answer) → IsFirst (record_in (L.state lines.new).told) whole → (expects : ExpectTable)
            → DoneAs (lined wants.Key (around_at self.old.time
            (first_key (due_send self.old.time watch.now.sends) (due_key keys.now self.old.taken self.old.time))
            expects (map (seen_line (L.state lines.old)) self.old.lines) (ahead_of (L.state lines.old).told whole)))
            result expects whole (L.state lines.old) (L.state lines.new) self.new.lines }
        ensures none { result ≡ None → (self.new ≡ self.old) × (lines.new ≡ lines.old) }
        ensures of { IfSome result (λ made. IsOfLine (got_on made)) }
        ensures wants { IfSome result (λ made. IsDoneOn wants.Key (is_ported self.old.lines)
            (first_key (due_send self.old.time watch.now.sends) (due_key keys.now self.old.taken self.old.time)) made) }
        ensures off { result ≡ None → IsOffLine wants.Key (is_ported self.old.lines)
            (first_key (due_send self.old.time watch.now.sends) (due_key keys.now self.old.taken self.old.time)) }
    {
        if !self.is_console_ported() {
            return None;
        }
        if self.has_key(watch, keys) {
            return None;
        }
        let time = self.time;
        let key = self.console.poll(lines, time);
        Some(of_console(key))
    }

    /// Whether the console line has a port.
    #[inline(always)]
    #[tactic(auto, using(crate::proofs::ConsoleSteps::ported_is))]
    fn is_console_ported(&self) -> bool
        ensures { result ≡ is_ported self.now.lines }
    {
        self.console.port().is_some()
    }

    /// Whether a byte of SEND or a typed key is due for the console.
    #[tactic(auto, using(crate::proofs::ConsoleSteps::first_some))]
    fn has_key(&self, watch: &Watch, keys: &Keys) -> bool
        ensures { result ≡ is_some
            (first_key (due_send self.now.time watch.now.sends) (due_key keys.now self.now.taken self.now.time)) }
    {
        has_sent(&watch.sends, self.time) || keys.due(self.taken, self.time).is_some()
    }

    /// Puts a byte on the console line, where that has a port.
    fn put_on_console(&mut self, byte: u8) -> Option<OnLine>
        ensures machine { self.new ≡ record self.old { lines = self.new.lines } }
        ensures lines { (tells : Bool) (s : LineState) → LinesGoOn tells s self.old.lines s self.new.lines }
        ensures told { (s : LineState) (whole : List Answer) (due : Option ℕ) (expects : ExpectTable)
            → DoneAs (lined (wants.Console byte) (around_at self.old.time due expects
            (map (seen_line s) self.old.lines) (ahead_of s.told whole))) result expects whole s s self.new.lines }
        ensures none { result ≡ None → self.new ≡ self.old }
        ensures of { IfSome result (λ made. IsOfLine (got_on made)) }
        ensures wants { IfSome result (λ made. (due : Option ℕ)
            → IsDoneOn (wants.Console byte) (is_ported self.old.lines) due made) }
        ensures off { result ≡ None → (due : Option ℕ)
            → IsOffLine (wants.Console byte) (is_ported self.old.lines) due }
    {
        if !self.is_console_ported() {
            return None;
        }
        Some(put_of_console(&mut self.console, byte))
    }
}

/// Whether a byte that was sent is due.
#[tactic(auto, using(crate::proofs::ConsoleSteps::sends_due))]
fn has_sent(sends: &Sends, time: u64) -> bool
    ensures { result ≡ is_some (due_send time sends.now) }
{
    match sends.in_order(0) {
        None => false,
        Some(send) => send.0 <= time,
    }
}

/// What a key of a line means for a unit, where one came.
fn got_of(key: Option<u8>) -> Got
    ensures got { result ≡ got_of_line key }
    ensures of { IsOfLine result }
    ensures poll { IsOfPoll result }
{
    match key {
        None => Got::NoKey,
        Some(key) => Got::Key(key),
    }
}

/// What a key of the console line means, where one came.
fn of_console(key: Option<u8>) -> OnLine
    ensures got { got_on result ≡ got_of_key key }
    ensures stop { (expects : ExpectTable) → stop_on result expects ≡ key_stop key }
    ensures expects { (expects : ExpectTable) → expects_on result expects ≡ expects }
    ensures of { IsOfLine (got_on result) }
    ensures made { IsKeyDone result }
{
    match key {
        None => OnLine::Gets(Got::NoKey),
        Some(WRU) => OnLine::Wru,
        Some(key) => OnLine::Gets(Got::Key(key)),
    }
}

/// Puts a byte on a line; answers what its unit gets.
fn put_on(line: &mut Line, byte: u8) -> Got
    ensures got { result ≡ put_got line.old }
    ensures of { IsOfLine result }
    ensures line { line.new ≡ put_line byte line.old }
    ensures settled { IsSettled line.old }
{
    match line.put(byte) {
        Ok(()) => Got::Done,
        Err(LineFull) => Got::LineFull,
    }
}

/// Puts a byte of the console on its line; answers what was done.
fn put_of_console(line: &mut Line, byte: u8) -> OnLine
    ensures got { got_on result ≡ put_got line.old }
    ensures stop { (expects : ExpectTable)
        → stop_on result expects ≡ (if is_full line.old then None else option_map Expect (match_at byte expects)) }
    ensures expects { (expects : ExpectTable)
        → expects_on result expects ≡ (if is_full line.old then expects else after_printed byte expects) }
    ensures of { IsOfLine (got_on result) }
    ensures made { IsByteDone byte result }
    ensures line { line.new ≡ put_line byte line.old }
    ensures settled { IsSettled line.old }
{
    match line.put(byte) {
        Ok(()) => OnLine::Put(byte),
        Err(LineFull) => OnLine::Gets(Got::LineFull),
    }
}
