ghost use Rattle.std.specs.Prelude.{◌≡◌, ◌≢◌, ◌≤◌, ◌↔◌, ℕ, List, [], ◌++◌, length, None, IsSome, IfOk, OnOk, OnErr, IsErr, option_map, IsTrue};
ghost use Rattle.telnet_lines.specs.Telnet.{rest_of, keys_of};
ghost use Rattle.telnet_lines.specs.Line.{IsSettled, unconnected, connected, fed, is_full, put_on, first_key, key_taken};

use crate::decoder::{NO_REST, Rest, decode};
use crate::pieces::{LONGEST_SENT, first_bytes};
use circular_buffer::HeapCircularBuffer;
use host_lines::{ConnId, Lines, Received};
use std::alloc::{AllocError, Global};
use std::marker::Model;

/// No byte is taken, since at least 1024 coded bytes wait to be sent.
#[derive(Clone, Copy, Debug, PartialEq, Eq)]
pub struct LineFull;

/// Where so many coded bytes wait, no more is taken.
const FULL: usize = 1024;

/// The most that can wait: the last byte that is taken may be doubled.
const MOST_OUTPUT: usize = FULL + 1;

/// The longest piece that is received, in bytes.
const LONGEST_RECEIVED: usize = 64;

/// What is sent first on a connection: WILL ECHO, WILL SUPPRESS-GO-AHEAD, WILL BINARY, DO BINARY.
const OPENING: [u8; 12] = [255, 251, 1, 255, 251, 3, 255, 251, 0, 255, 253, 0];

const IAC: u8 = 255;

/// A terminal line: a port, and one connection to it over Telnet.
#[derive(Drop)]
pub struct Line {
    port: Option<u16>,
    connection: Option<ConnId>,
    keys: HeapCircularBuffer<u8>,
    output: HeapCircularBuffer<u8>,
    rest: Rest,
}

impl Model for Line {
    ghost use Rattle.std.specs.Prelude.{◌≡◌, ℕ, option_map};
    ghost use Rattle.telnet_lines.specs.Line.{LineOf, IsSettled, line_of};

    ghost Value = { LineOf ℕ };

    ghost view = { λ l. line_of l.port (option_map (λ c. c.0) l.connection) l.keys.items l.output.items l.rest };

    ghost invariant = { λ l. (l.keys.capacity ≡ 64) × (l.output.capacity ≡ 1025)
        × IsSettled (line_of l.port (option_map (λ c. c.0) l.connection) l.keys.items l.output.items l.rest) };
}

impl Line {
    /// A line without a port.
    pub fn new(alloc: Global) -> Result<Line, AllocError>
        ensures { IfOk result (λ line. line ≡ unconnected None) }
    {
        Ok(Line {
            port: None,
            connection: None,
            keys: HeapCircularBuffer::with_capacity(alloc, LONGEST_RECEIVED)?,
            output: HeapCircularBuffer::with_capacity(alloc, MOST_OUTPUT)?,
            rest: NO_REST,
        })
    }

    /// Gives the line that port, or none. It has no connection then.
    pub fn set_port(&mut self, port: Option<u16>)
        ensures { self.new ≡ unconnected port }
    {
        self.drop_connection();
        self.port = port;
    }

    /// The port on which it is to be reached.
    pub fn port(&self) -> Option<u16>
        ensures port { result ≡ self.now.port }
        ensures settled { IsSettled self.now }
    {
        self.port
    }

    /// Whether it has no port: nobody is connected then, and nothing waits.
    pub fn is_closed(&self) -> bool
        ensures { IsTrue result ↔ self.now ≡ unconnected None }
    {
        self.port.is_none()
    }

    /// The connection that stands.
    pub fn connection(&self) -> Option<ConnId>
        ensures { option_map (λ c. c.0) result ≡ self.now.connection }
    {
        self.connection
    }

    /// Begins a connection that was accepted: of an earlier one no key, no output and nothing undecoded is left, and
    /// the opening waits to be sent. No call is made on lines, and none can fail.
    pub fn connect(&mut self, conn: ConnId)
        requires { IsSome self.old.port }
        ensures { self.new ≡ connected conn.0 self.old }
    {
        self.drop_connection();
        self.connection = Some(conn);
        let _ = self.output.fill_from_slice(&OPENING);
    }

    /// Drops the connection, if one stands, with all that waits.
    pub fn drop_connection(&mut self)
        ensures { self.new ≡ unconnected self.old.port }
    {
        self.connection = None;
        self.keys.clear();
        self.output.clear();
        self.rest = NO_REST;
    }

    /// Takes at most 64 bytes that were received, where no key waits. Their keys wait to be taken, and a sequence that
    /// they do not end goes on with the next ones. It takes no memory, and can't fail.
    pub fn feed(&mut self, bytes: &[u8])
        requires connected { IsSome self.old.connection }
        requires few { length bytes.now ≤ 64 }
        requires taken { self.old.keys ≡ [] }
        ensures line { self.new ≡ fed bytes.now self.old }
        ensures cut { (received : List ℕ) → self.old.rest ≡ rest_of received →
            (self.new.rest ≡ rest_of (received ++ bytes.now)) × (keys_of (received ++ bytes.now) ≡ keys_of received ++ self.new.keys) }
    {
        decode(&mut self.rest, bytes, &mut self.keys);
    }

    /// Puts a byte on the line, to be sent. Where nobody is connected it goes nowhere.
    #[tactic(auto, unfolding(crate::specs::Telnet::coded))]
    pub fn put(&mut self, byte: u8) -> Result<(), LineFull>
        ensures full { IsErr result ↔ IsTrue (is_full self.old) }
        ensures ok { OnOk result (self.new ≡ put_on byte self.old) }
        ensures refused { OnErr result (self.new ≡ self.old) }
        ensures settled { IsSettled self.old }
    {
        if self.connection.is_none() {
            return Ok(());
        }
        if self.output.len() >= FULL {
            return Err(LineFull);
        }
        if byte == IAC {
            let _ = self.output.fill_from_slice(&[IAC, IAC]);
        } else {
            let _ = self.output.fill_from_slice(&[byte]);
        }
        Ok(())
    }

    /// Takes the first key that waits.
    pub fn take_key(&mut self) -> Option<u8>
        ensures key { result ≡ first_key self.old.keys }
        ensures line { self.new ≡ key_taken self.old }
    {
        self.keys.pop_front()
    }

    /// How many coded bytes wait to be sent.
    pub fn pending(&self) -> usize
        ensures { result ≡ length self.now.output }
    {
        self.output.len()
    }
}

impl Line {
    ghost use Rattle.telnet_lines.specs.Poll.{accepted, received};
    ghost use Rattle.telnet_lines.specs.Joined.{Makes, Sends, Polls, KeepsOthers, KeepsParties};

    /// Accepts a connection where none stands, receives where no key waits, takes a key, which it answers, and sends
    /// what waits: at most one call of each kind, in this order, and none without a port. A fault of `receive` or
    /// `send` ends the connection.
    pub fn poll<L: Lines>(&mut self, lines: &mut L, now: u64) -> Option<u8>
        ensures told { IsTrue L.tells → Polls now result (L.state lines.old) self.old (L.state lines.new) self.new }
        ensures others { KeepsOthers (L.state lines.old) self.old (L.state lines.new) self.new }
        ensures parties { IsTrue L.tells → KeepsParties (L.state lines.old) self.old (L.state lines.new) self.new }
        ensures port { self.new.port ≡ self.old.port }
        ensures idle { self.old.port ≡ None → (result ≡ None) × (self.new ≡ unconnected None) × (self.new ≡ self.old)
            × (lines.new ≡ lines.old) }
        ensures waiting { self.old.keys ≢ [] → result ≡ first_key self.old.keys }
        ensures none { result ≡ None → self.new.keys ≡ [] }
    {
        self.accept(lines, now);
        self.receive(lines, now);
        let key = self.take_key();
        self.send(lines, now);
        key
    }

    /// Accepts a connection, where there is a port and none stands.
    #[tactic(auto, unfolding(crate::specs::Poll::accepted))]
    fn accept<L: Lines>(&mut self, lines: &mut L, now: u64)
        ensures sent { (L.state lines.new).sent ≡ (L.state lines.old).sent }
        ensures told { IsTrue L.tells → Makes (accepted now) (L.state lines.old) self.old (L.state lines.new) self.new }
        ensures others { KeepsOthers (L.state lines.old) self.old (L.state lines.new) self.new }
        ensures parties { IsTrue L.tells → KeepsParties (L.state lines.old) self.old (L.state lines.new) self.new }
        ensures port { self.new.port ≡ self.old.port }
        ensures idle { self.old.port ≡ None → (self.new ≡ unconnected None) × (self.new ≡ self.old) × (lines.new ≡ lines.old) }
        ensures waiting { self.old.keys ≢ [] → self.new ≡ self.old }
    {
        if self.connection.is_some() {
            return;
        }
        let Some(port) = self.port else {
            return;
        };
        match lines.accept(port, now) {
            Ok(Some(conn)) => self.connect(conn),
            Ok(None) | Err(_) => (),
        }
    }

    /// Receives a piece, where a connection stands and no key waits.
    #[tactic(auto, unfolding(crate::specs::Poll::received))]
    fn receive<L: Lines>(&mut self, lines: &mut L, now: u64)
        ensures sent { (L.state lines.new).sent ≡ (L.state lines.old).sent }
        ensures told { IsTrue L.tells → Makes (received now) (L.state lines.old) self.old (L.state lines.new) self.new }
        ensures others { KeepsOthers (L.state lines.old) self.old (L.state lines.new) self.new }
        ensures parties { IsTrue L.tells → KeepsParties (L.state lines.old) self.old (L.state lines.new) self.new }
        ensures port { self.new.port ≡ self.old.port }
        ensures idle { self.old.connection ≡ None → (self.new ≡ self.old) × (lines.new ≡ lines.old) }
        ensures waiting { self.old.keys ≢ [] → self.new ≡ self.old }
    {
        let Some(conn) = self.connection else {
            return;
        };
        if !self.keys.is_empty() {
            return;
        }
        let mut bytes = [0; LONGEST_RECEIVED];
        match lines.receive(conn, &mut bytes, now) {
            Ok(Received::Bytes(count)) => self.feed(&bytes[..count]),
            Ok(Received::NoneYet) => (),
            Ok(Received::HungUp) => self.drop_connection(),
            Err(_) => {
                lines.hang_up(conn);
                self.drop_connection();
            }
        }
    }

    /// Sends a piece, where a connection stands and output waits.
    #[tactic(auto, unfolding(crate::specs::Poll::sent))]
    fn send<L: Lines>(&mut self, lines: &mut L, now: u64)
        ensures told { IsTrue L.tells → Sends (L.state lines.old) self.old (L.state lines.new) self.new }
        ensures others { KeepsOthers (L.state lines.old) self.old (L.state lines.new) self.new }
        ensures parties { IsTrue L.tells → KeepsParties (L.state lines.old) self.old (L.state lines.new) self.new }
        ensures port { self.new.port ≡ self.old.port }
        ensures idle { self.old.connection ≡ None → (self.new ≡ self.old) × (lines.new ≡ lines.old) }
        ensures keys { self.old.keys ≡ [] → self.new.keys ≡ [] }
    {
        let Some(conn) = self.connection else {
            return;
        };
        if self.output.is_empty() {
            return;
        }
        let mut piece = [0; LONGEST_SENT];
        let size = first_bytes(&self.output, &mut piece);
        match lines.send(conn, &piece[..size], now) {
            Ok(count) => self.output.truncate_front(self.output.len() - count),
            Err(_) => {
                lines.hang_up(conn);
                self.drop_connection();
            }
        }
    }
}
