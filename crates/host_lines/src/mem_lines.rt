ghost use Rattle.std.specs.Prelude.{◌≡◌, ◌≤◌, ◌<◌, ◌^◌, ◌+◌, ◌-◌, [], ◌∷◌, ◌++◌, length, take, min, remove, get_or, sum_by, vec_len, vec_capacity, slice_get, true, IfOk, OnOk, OnErr, Ok, MatchOption};
ghost use Rattle.std.specs.List.{position};
ghost use Rattle.fault_counts.specs.Faults.{CountsFault};
ghost use Rattle.host_lines.specs.declared.entry.CallerAct.TheVariants as acts;
ghost use Rattle.host_lines.specs.Traffic.{accepting, receiving, sending, comes_from, caller_at, Gone, Caller, sent_bytes};
ghost use Rattle.host_lines.specs.Told.{Gives, heard_more};
ghost use Rattle.host_lines.specs.State.{parties, without_one};
ghost use Rattle.host_lines.specs.LineCalls.{Listens, Accepts, Receives, OthersStay, ports_after, accepted_after, received_after, listen_faults, accept_answer, receive_answer, send_answer, sent_count, received_count, LeavesRest};
ghost use Rattle.host_lines.specs.MemLines.{no_lines, with_entry, happens, with_failing, connects_of, peer_at, traffic_of, ended, given_after, IsNumbered};

use crate::calls::Calls;
use crate::entry::{CallerAct, Entry};
use crate::lines::{ConnId, LineFault, Lines, ListenFault, Received, Sent};
use crate::traffic::{add_entry, first_connect, first_input, keep_sent, take_input};
use std::alloc::{AllocError, Global};
use std::marker::Model;

/// A connection that was accepted: its caller, and whether it stands.
#[derive(Clone, Copy, Debug, PartialEq, Eq)]
pub struct Given {
    pub caller: u32,
    pub stands: bool,
}

/// Lines in memory, with what comes on them told beforehand. The calls of `listen`, `accept`, `receive` and `send` are
/// numbered together from 0, and those that were named fail.
#[derive(Drop)]
pub struct MemLines {
    entries: Vec<Entry>,
    most: usize,
    room: usize,
    calls: Calls,
    ports: Vec<u16>,
    given: Vec<Given>,
    sent: Vec<Sent>,
    last: u64,
    connects: u64,
    alloc: Global,
}

impl Model for MemLines {
    ghost use Rattle.std.specs.Prelude.{◌+◌, ◌≤◌, ◌^◌, vec_len, vec_capacity, sum_by};
    ghost use Rattle.host_lines.specs.MemLines.{MemState, connects_of};

    ghost Value = { MemState };

    ghost view = { λ m. record {
      entries = m.entries.items;
      most = m.most;
      room = m.room;
      calls = m.calls;
      ports = m.ports.items;
      given = m.given.items;
      sent = m.sent.items;
      last = m.last;
      connects = m.connects;
    } };

    ghost invariant = { λ m. (vec_len m.sent + m.room ≤ vec_capacity m.sent)
        × (sum_by connects_of m.entries.items + vec_len m.given ≤ m.connects)
        × (m.connects ≤ vec_capacity m.given) × (m.connects ≤ 2 ^ 32) };
}

impl MemLines {
    /// Lines on which nothing comes. They keep so many bytes that are sent, and take no more.
    pub fn with_room(alloc: Global, room: usize) -> Result<MemLines, AllocError>
        ensures { IfOk result (λ m. m ≡ no_lines (2 ^ 64 - 1) room) }
    {
        Ok(MemLines {
            entries: Vec::new(alloc),
            most: usize::MAX,
            room,
            calls: Calls::new(alloc),
            ports: Vec::new(alloc),
            given: Vec::new(alloc),
            sent: Vec::with_capacity(alloc, room)?,
            last: 0,
            connects: 0,
            alloc,
        })
    }

    /// At that time, in instructions, a caller connects to a port, which is accepted by a later `accept` of that port.
    /// What is added later is due no earlier. Where there is no memory, nothing has changed.
    pub fn add_connect(&mut self, time: u64, port: u16, caller: u32) -> Result<(), AllocError>
        requires order { self.old.last ≤ time }
        requires few { self.old.connects < 2 ^ 32 }
        ensures ok { OnOk result (self.new ≡ with_entry (happens time caller (acts.Connects port) []) self.old) }
        ensures refused { OnErr result (self.new ≡ self.old) }
    {
        let more = self.connects as usize + 1 - self.given.len();
        self.given.reserve(more)?;
        add_entry(
            self.alloc,
            &mut self.entries,
            time,
            caller,
            CallerAct::Connects(port),
            b"",
        )?;
        self.last = time;
        self.connects += 1;
        Ok(())
    }

    /// At that time, in instructions, a caller sends bytes on its connection. Where there is no memory, nothing has
    /// changed.
    pub fn add_bytes(&mut self, time: u64, caller: u32, bytes: &[u8]) -> Result<(), AllocError>
        requires order { self.old.last ≤ time }
        ensures ok { OnOk result (self.new ≡ with_entry (happens time caller acts.Sends bytes.now) self.old) }
        ensures refused { OnErr result (self.new ≡ self.old) }
    {
        add_entry(
            self.alloc,
            &mut self.entries,
            time,
            caller,
            CallerAct::Sends,
            bytes,
        )?;
        self.last = time;
        Ok(())
    }

    /// At that time, in instructions, a caller hangs up. Where there is no memory, nothing has changed.
    pub fn add_hang_up(&mut self, time: u64, caller: u32) -> Result<(), AllocError>
        requires order { self.old.last ≤ time }
        ensures ok { OnOk result (self.new ≡ with_entry (happens time caller acts.HangsUp []) self.old) }
        ensures refused { OnErr result (self.new ≡ self.old) }
    {
        add_entry(
            self.alloc,
            &mut self.entries,
            time,
            caller,
            CallerAct::HangsUp,
            b"",
        )?;
        self.last = time;
        Ok(())
    }

    /// From now on a send takes so many bytes at the most.
    pub fn limit_send(&mut self, most: usize)
        ensures { self.new ≡ record self.old { most = most } }
    {
        self.most = most;
    }

    /// Names a call that is to fail, by its number. Where there is no memory, none is named, and nothing has changed.
    pub fn fail_call(&mut self, number: u64) -> Result<(), AllocError>
        ensures ok { OnOk result (self.new ≡ record self.old { calls = with_failing number self.old.calls }) }
        ensures refused { OnErr result (self.new ≡ self.old) }
    {
        self.calls.fail_call(number)
    }

    /// The bytes that were sent, in order and each with its caller.
    pub fn sent(&self) -> &[Sent]
        ensures { result.now ≡ self.now.sent }
    {
        self.sent.as_slice()
    }
}

impl Lines for MemLines {
    ghost use Rattle.std.specs.Prelude.{true};
    ghost use Rattle.host_lines.specs.MemLines.{state_of};
    ghost use Rattle.host_lines.specs.MemPeers.{peers_stand};

    ghost tells = { true };

    ghost state = { λ m. state_of m };

    ghost peers_stand = { λ tells m. peers_stand m };

    fn listen(&mut self, _alloc: Global, port: u16) -> Result<(), ListenFault>
        ensures told { Listens (state_of self.old).told (state_of self.new).told result }
        ensures ports { (state_of self.new).listens ≡ ports_after port result (state_of self.old).listens }
        ensures stands { (state_of self.new).stands ≡ (state_of self.old).stands }
        ensures given { (state_of self.new).given ≡ (state_of self.old).given }
        ensures peers { parties (state_of self.new) ≡ parties (state_of self.old) }
        ensures sent { (state_of self.new).sent ≡ (state_of self.old).sent }
        ensures counts { (state_of self.new).faults ≡ listen_faults result (state_of self.old).faults }
        ensures last { self.new.last ≡ self.old.last }
        ensures connects { self.new.connects ≡ self.old.connects }
    {
        match self.ports.reserve(1) {
            Err(AllocError) => return Err(ListenFault::OutOfMemory),
            Ok(()) => (),
        }
        if self.calls.begin() {
            return Err(ListenFault::Failed);
        }
        let _ = self.ports.push(port);
        Ok(())
    }

    fn unlisten(&mut self, port: u16)
        ensures told { (state_of self.new).told ≡ (state_of self.old).told }
        ensures ports { (state_of self.new).listens ≡ without_one port (state_of self.old).listens }
        ensures stands { (state_of self.new).stands ≡ (state_of self.old).stands }
        ensures given { (state_of self.new).given ≡ (state_of self.old).given }
        ensures peers { parties (state_of self.new) ≡ parties (state_of self.old) }
        ensures sent { (state_of self.new).sent ≡ (state_of self.old).sent }
        ensures counts { (state_of self.new).faults ≡ (state_of self.old).faults }
        ensures last { self.new.last ≡ self.old.last }
        ensures connects { self.new.connects ≡ self.old.connects }
    {
        self.ports.retain(|p| *p != port);
    }

    fn accept(&mut self, port: u16, now: u64) -> Result<Option<ConnId>, LineFault>
        ensures told { Gives (state_of self.old).told (state_of self.new).told
            (accepting port now) (accept_answer (parties (state_of self.new)) result) }
        ensures ports { (state_of self.new).listens ≡ (state_of self.old).listens }
        ensures stands { (state_of self.new).stands ≡ accepted_after result (state_of self.old).stands }
        ensures given { (state_of self.new).given ≡ accepted_after result (state_of self.old).given }
        ensures peers { Accepts (state_of self.old) (state_of self.new) result }
        ensures sent { (state_of self.new).sent ≡ (state_of self.old).sent }
        ensures counts { CountsFault (state_of self.old).faults (state_of self.new).faults result }
        ensures ids { IsNumbered self.old.given result }
        ensures last { self.new.last ≡ self.old.last }
        ensures connects { self.new.connects ≡ self.old.connects }
    {
        if self.calls.begin() {
            return Err(LineFault);
        }
        match first_connect(self.entries.as_slice(), port, now) {
            None => Ok(None),
            Some(place) => Ok(Some(self.give(place))),
        }
    }

    fn receive(&mut self, conn: ConnId, buf: &mut [u8], now: u64) -> Result<Received, LineFault>
        ensures bound { received_count result ≤ length buf.new }
        ensures lent { LeavesRest result buf.old buf.new }
        ensures told { Gives (state_of self.old).told (state_of self.new).told
            (receiving (parties (state_of self.old) conn.0) (length buf.old) now) (receive_answer buf.new result) }
        ensures ports { (state_of self.new).listens ≡ (state_of self.old).listens }
        ensures stands { (state_of self.new).stands ≡ received_after conn.0 result (state_of self.old).stands }
        ensures given { (state_of self.new).given ≡ (state_of self.old).given }
        ensures peers { Receives conn.0 (state_of self.old) (state_of self.new) result }
        ensures sent { (state_of self.new).sent ≡ (state_of self.old).sent }
        ensures counts { CountsFault (state_of self.old).faults (state_of self.new).faults result }
        ensures last { self.new.last ≡ self.old.last }
        ensures connects { self.new.connects ≡ self.old.connects }
    {
        if self.calls.begin() {
            return Err(LineFault);
        }
        match self.standing_caller(conn) {
            None => Ok(Received::HungUp),
            Some(caller) => Ok(self.input(conn, caller, buf, now)),
        }
    }

    fn send(&mut self, conn: ConnId, bytes: &[u8], _now: u64) -> Result<usize, LineFault>
        ensures bound { sent_count result ≤ length bytes.now }
        ensures told { Gives (state_of self.old).told (state_of self.new).told
            (sending (parties (state_of self.old) conn.0) (length bytes.now)) (send_answer (length bytes.now) result) }
        ensures ports { (state_of self.new).listens ≡ (state_of self.old).listens }
        ensures stands { (state_of self.new).stands ≡ (state_of self.old).stands }
        ensures given { (state_of self.new).given ≡ (state_of self.old).given }
        ensures peers { parties (state_of self.new) ≡ parties (state_of self.old) }
        ensures sent { (state_of self.new).sent ≡ heard_more (state_of self.old).sent
            (sent_bytes (parties (state_of self.old) conn.0) (take (sent_count result) bytes.now)) }
        ensures counts { CountsFault (state_of self.old).faults (state_of self.new).faults result }
        ensures last { self.new.last ≡ self.old.last }
        ensures connects { self.new.connects ≡ self.old.connects }
    {
        if self.calls.begin() {
            return Err(LineFault);
        }
        match self.standing_caller(conn) {
            None => Ok(0),
            Some(caller) => Ok(self.take_sent(caller, bytes)),
        }
    }

    fn hang_up(&mut self, conn: ConnId)
        ensures told { (state_of self.new).told ≡ (state_of self.old).told }
        ensures ports { (state_of self.new).listens ≡ (state_of self.old).listens }
        ensures stands { (state_of self.new).stands ≡ without_one conn.0 (state_of self.old).stands }
        ensures given { (state_of self.new).given ≡ (state_of self.old).given }
        ensures peers { OthersStay conn.0 (state_of self.old) (state_of self.new) }
        ensures sent { (state_of self.new).sent ≡ (state_of self.old).sent }
        ensures counts { (state_of self.new).faults ≡ (state_of self.old).faults }
        ensures last { self.new.last ≡ self.old.last }
        ensures connects { self.new.connects ≡ self.old.connects }
    {
        end(&mut self.given, conn);
    }

    fn faults(&self) -> u64 {
        self.calls.faults()
    }
}

impl MemLines {
    ghost use Rattle.std.specs.Prelude.{min, ◌-◌};
    ghost use Rattle.host_lines.specs.Traffic.{Script, replied, taken_input};

    /// The caller of a connection that stands.
    fn standing_caller(&self, conn: ConnId) -> Option<u32>
        ensures { MatchOption result (peer_at (slice_get self.now.given conn.0) ≡ Gone) (λ c. peer_at (slice_get self.now.given conn.0) ≡ Caller c) }
    {
        match self.given.get(conn.0 as usize) {
            Some(given) if given.stands => Some(given.caller),
            _ => None,
        }
    }

    /// Takes the entry at a place, which connects, and gives that connection.
    fn give(&mut self, place: usize) -> ConnId
        requires within { place < length self.old.entries }
        requires connects { connects_of (get_or self.old.entries place (happens 0 0 acts.HangsUp [])) ≡ 1 }
        ensures id { result.0 ≡ length self.old.given }
        ensures lines { self.new ≡ record self.old {
          entries = remove self.old.entries place;
          given = self.old.given ++ record { caller = caller_at (slice_get self.old.entries place); stands = true } ∷ [];
        } }
    {
        let entry = self.entries.remove(place);
        let id = ConnId(self.given.len() as u32);
        let _ = self.given.push(Given {
            caller: entry.caller(),
            stands: true,
        });
        id
    }

    /// Takes what comes from a caller on its connection, if something has come.
    fn input(&mut self, conn: ConnId, caller: u32, buf: &mut [u8], now: u64) -> Received
        requires { peer_at (slice_get self.old.given conn.0) ≡ Caller caller }
        ensures bound { received_count (Ok result) ≤ length buf.new }
        ensures lent { LeavesRest (Ok result) buf.old buf.new }
        ensures traffic { replied (receive_answer buf.new (Ok result)) (Script (traffic_of self.new))
            ≡ taken_input (length buf.old) (position (comes_from caller now) self.old.entries) (traffic_of self.old) }
        ensures given { self.new.given ≡ given_after conn.0 result self.old.given }
        ensures sent { self.new.sent ≡ self.old.sent }
        ensures ports { self.new.ports ≡ self.old.ports }
        ensures calls { self.new.calls ≡ self.old.calls }
        ensures last { self.new.last ≡ self.old.last }
        ensures connects { self.new.connects ≡ self.old.connects }
    {
        let Some(place) = first_input(self.entries.as_slice(), caller, now) else {
            return Received::NoneYet;
        };
        let received = take_input(&mut self.entries, place, buf);
        if received == Received::HungUp {
            end(&mut self.given, conn);
        }
        received
    }

    /// Takes first bytes of a piece as sent to a caller, and answers how many.
    fn take_sent(&mut self, caller: u32, bytes: &[u8]) -> usize
        ensures count { result ≡ min (length bytes.now) (min self.old.most self.old.room) }
        ensures lines { self.new ≡ record self.old {
          room = self.old.room - result;
          sent = self.old.sent ++ sent_bytes (Caller caller) (take result bytes.now);
        } }
    {
        let count = bytes.len().min(self.most.min(self.room));
        keep_sent(&mut self.sent, caller, &bytes[..count]);
        self.room -= count;
        count
    }
}

/// Ends a connection, if it was accepted.
fn end(given: &mut Vec<Given>, conn: ConnId)
    ensures given { given.new.items ≡ ended conn.0 given.old.items }
    ensures capacity { vec_capacity given.new ≡ vec_capacity given.old }
{
    if (conn.0 as usize) < given.len() {
        given[conn.0 as usize].stands = false;
    }
}
