ghost use Rattle.std.specs.Prelude.{◌≡◌, ◌<◌, ◌+◌, ◌==◌, [], ◌∷◌, ◌++◌, false, length, IfSome, IfNone, OnOk, OnErr};
ghost use Rattle.std.specs.List.{position};
ghost use Rattle.fault_counts.specs.Faults.{raised};
ghost use Rattle.host_adapters.specs.RealLines.{without_number, is_in, port_of, number_of};

use crate::readiness::{Readiness, Ways};
use crate::sockets::{Answered, accept_from, receive_from, sent, write_to};
use fault_counts::raised_count;
use host_lines::{ConnId, LineFault, Lines, ListenFault, OutOfMemory, Received};
use mio::event::Source;
use mio::net::{TcpListener, TcpStream};
use mio::{Events, Interest, Poll, Token};
use std::alloc::Global;
use std::io;
use std::io::ErrorKind;
use std::marker::Model;
use std::net::{Ipv4Addr, Net, SocketAddr};
use std::time::Duration;

/// The address that ports are listened on: only callers of this computer reach it.
const ADDRESS: Ipv4Addr = Ipv4Addr::LOCALHOST;

/// On how many sockets the system tells at once that something has happened. It tells of others at the next question.
const EVENTS: usize = 256;

/// A port that is listened on, and what is known of calls that accept there.
#[derive(Drop)]
pub struct OpenPort {
    port: u16,
    listener: TcpListener,
    accepts: Readiness,
}

/// A connection that stands, and what is known of calls on it.
#[derive(Drop)]
pub struct OpenConnection {
    conn: u32,
    stream: TcpStream,
    ways: Ways,
}

/// Sockets on 127.0.0.1, as lines. What they carry is not told. Each call that fails raises the count.
///
/// No call waits. A call that a signal cuts short is made again, up to 64 times in a row. Where a call would have to
/// wait, the next ones of that port, or of that connection and in that direction, are answered as it was, without a
/// call to the system, until the system has told that something has happened there. It is asked about all ports and
/// connections at once, and not before one of them has been answered so 63 times since it was asked last: whoever polls
/// many lines, and often, would else spend most of their time there.
#[derive(Drop)]
pub struct RealLines<'a, N: Net> {
    net: &'a N,
    ports: Vec<OpenPort>,
    connections: Vec<OpenConnection>,
    // None once every number was given.
    next: Option<u32>,
    faults: u64,
    // All sockets, as the system knows them; none before the first port.
    poll: Option<Poll>,
    // The room for what it tells of them; none before the first port.
    events: Option<Events>,
    // How often it was asked.
    asked: u64,
}

impl<'a, N: Net> Model for RealLines<'a, N> {
    ghost use Rattle.std.specs.Prelude.{map};
    ghost use Rattle.host_adapters.specs.RealLines.{SocketState, AreGiven, given_before, port_of, number_of};

    ghost Value = { SocketState };

    ghost view = { λ l. record {
      ports = map port_of l.ports.items;
      connections = map number_of l.connections.items;
      given = given_before l.next;
      faults = l.faults;
    } };

    ghost invariant = { λ l. AreGiven (given_before l.next) (map number_of l.connections.items) };
}

impl<'a, N: Net> RealLines<'a, N> {
    /// No port is listened on, no connection stands, and no call has failed.
    pub fn new(alloc: Global, net: &'a N) -> RealLines<'a, N>
        ensures { result ≡ record { ports = []; connections = []; given = 0; faults = 0 } }
    {
        RealLines {
            net,
            ports: Vec::new(alloc),
            connections: Vec::new(alloc),
            next: Some(0),
            faults: 0,
            poll: None,
            events: None,
            asked: 0,
        }
    }

    /// Counts a call that failed.
    fn count_fault(&mut self) -> LineFault
        ensures { self.new ≡ record self.old { faults = raised self.old.faults } }
    {
        self.faults = raised_count(self.faults);
        LineFault
    }

    /// Takes the memory for what the system tells of sockets.
    fn reserve_events(&mut self, alloc: Global) -> Result<(), OutOfMemory>
        ensures { self.new ≡ self.old }
    {
        if self.events.is_none() {
            self.events = Some(Events::with_capacity(alloc, EVENTS)?);
        }
        Ok(())
    }

    /// Has the system know sockets from now on.
    fn begin_poll(&mut self) -> io::Result<()>
        ensures { self.new ≡ self.old }
    {
        if self.poll.is_none() {
            self.poll = Some(Poll::new(self.net)?);
        }
        Ok(())
    }

    /// Has the system know a socket by that token.
    fn register<S: Source>(&self, socket: &mut S, token: Token) -> io::Result<()> {
        match &self.poll {
            Some(poll) => {
                let both = Interest::READABLE | Interest::WRITABLE;
                poll.registry().register(socket, token, both)
            }
            None => Err(io::Error::from(ErrorKind::NotConnected)),
        }
    }

    /// Listens on a port, for which there is a place.
    fn open(&mut self, port: u16) -> io::Result<()>
        ensures ok { OnOk result (self.new ≡ record self.old { ports = self.old.ports ++ port ∷ [] }) }
        ensures refused { OnErr result (self.new ≡ self.old) }
    {
        let listener = self.listener(port)?;
        let opened = OpenPort {
            port,
            listener,
            accepts: Readiness::Ready,
        };
        match self.ports.push(opened) {
            Ok(()) => Ok(()),
            Err(_) => Err(io::Error::from(ErrorKind::OutOfMemory)),
        }
    }

    /// A socket that listens on a port, and that the system knows.
    fn listener(&mut self, port: u16) -> io::Result<TcpListener>
        ensures { self.new ≡ self.old }
    {
        self.begin_poll()?;
        let address = SocketAddr::from((ADDRESS, port));
        let mut listener = TcpListener::bind(self.net, address)?;
        self.register(&mut listener, port_token(port))?;
        Ok(listener)
    }

    fn close(&mut self, port: u16)
        ensures { self.new ≡ record self.old { ports = without_number port self.old.ports } }
    {
        self.ports.retain(|p| p.port != port);
    }

    /// Keeps an accepted connection under a number that was not given before. There is none, and the connection ends,
    /// where every number was given, where more connections stand than there is room for, which is one for each
    /// listening, and where the system does not take it among those of which it tells.
    fn keep(&mut self, stream: TcpStream) -> Option<ConnId>
        ensures some { IfSome result (λ id. self.new
            ≡ record self.old { connections = self.old.connections ++ id.0 ∷ []; given = id.0 + 1 }) }
        ensures next { IfSome result (λ id. id.0 ≡ self.old.given) }
        ensures fresh { IfSome result (λ id. is_in self.old.connections id.0 ≡ false) }
        ensures none { IfNone result (self.new ≡ self.old) }
    {
        let conn = self.next?;
        if self.connections.len() >= self.connections.capacity() {
            return None;
        }
        let stream = self.registered(stream, conn)?;
        self.next = conn.checked_add(1);
        let _ = self.connections.push(OpenConnection {
            conn,
            stream,
            ways: Ways::ready(),
        });
        Some(ConnId(conn))
    }

    /// A connection, once the system knows it.
    fn registered(&self, mut stream: TcpStream, conn: u32) -> Option<TcpStream> {
        match self.register(&mut stream, connection_token(conn)) {
            Ok(()) => Some(stream),
            Err(_) => None,
        }
    }

    fn end(&mut self, conn: ConnId)
        ensures { self.new ≡ record self.old { connections = without_number conn.0 self.old.connections } }
    {
        self.connections.retain(|c| c.conn != conn.0);
    }

    /// That is known of calls that accept on the port at a place.
    fn know_port(&mut self, place: usize, accepts: Readiness)
        requires { place < length self.old.ports }
        ensures { self.new ≡ self.old }
    {
        self.ports[place].accepts = accepts;
    }

    /// That is known of calls on the connection at a place.
    fn know_connection(&mut self, place: usize, ways: Ways)
        requires { place < length self.old.connections }
        ensures { self.new ≡ self.old }
    {
        self.connections[place].ways = ways;
    }

    /// Something has happened on the socket with that token, if it is one of these.
    fn mark(&mut self, token: Token)
        ensures { self.new ≡ self.old }
    {
        if let Some(place) = place_of_listener(self.ports.as_slice(), token) {
            self.know_port(place, Readiness::Ready);
        }
        if let Some(place) = place_of_stream(self.connections.as_slice(), token) {
            self.know_connection(place, Ways::ready());
        }
    }

    /// Has the system tell what has happened since it was asked last. It does not wait.
    fn tell(&mut self, events: &mut Events)
        ensures { self.new ≡ self.old }
    {
        match &mut self.poll {
            Some(poll) => {
                // A question that fails tells nothing.
                let _ = poll.poll(events, Some(Duration::ZERO));
            }
            None => events.clear(),
        }
    }

    /// Asks the system about all ports and connections.
    fn ask(&mut self)
        ensures { self.new ≡ self.old }
    {
        self.asked = self.asked.wrapping_add(1);
        let Some(mut events) = self.events.take() else {
            return;
        };
        self.tell(&mut events);
        for event in &events {
            self.mark(event.token());
        }
        self.events = Some(events);
    }
}

impl<'a, N: Net> RealLines<'a, N> {
    ghost use Rattle.std.specs.Prelude.{◌≤◌, Ok};
    ghost use Rattle.fault_counts.specs.Faults.{CountsFault};
    ghost use Rattle.host_lines.specs.LineCalls.{accepted_after, received_after, received_count, sent_count, LeavesRest};

    /// Whether a call that accepts on the port at a place may come to something. Where it would have to wait, it rests
    /// once more, or the system is asked.
    fn port_is_ready(&mut self, place: usize) -> bool
        requires { place < length self.old.ports }
        ensures { self.new ≡ self.old }
    {
        match self.ports[place].accepts.at_a_call(self.asked) {
            Some(accepts) => self.know_port(place, accepts),
            None => self.ask(),
        }
        self.ports[place].accepts.is_ready()
    }

    /// The same of a call that receives on the connection at a place.
    fn can_receive(&mut self, place: usize) -> bool
        requires { place < length self.old.connections }
        ensures { self.new ≡ self.old }
    {
        let Ways { receives, sends } = self.connections[place].ways;
        match receives.at_a_call(self.asked) {
            Some(receives) => self.know_connection(place, Ways { receives, sends }),
            None => self.ask(),
        }
        self.connections[place].ways.receives.is_ready()
    }

    /// The same of a call that sends on the connection at a place.
    fn can_send(&mut self, place: usize) -> bool
        requires { place < length self.old.connections }
        ensures { self.new ≡ self.old }
    {
        let Ways { receives, sends } = self.connections[place].ways;
        match sends.at_a_call(self.asked) {
            Some(sends) => self.know_connection(place, Ways { receives, sends }),
            None => self.ask(),
        }
        self.connections[place].ways.sends.is_ready()
    }

    /// A call that receives on the connection at a place would have had to wait.
    fn rest_receives(&mut self, place: usize)
        requires { place < length self.old.connections }
        ensures { self.new ≡ self.old }
    {
        let sends = self.connections[place].ways.sends;
        let receives = Readiness::begins_to_rest(self.asked);
        self.know_connection(place, Ways { receives, sends });
    }

    /// A call that sends on the connection at a place would have had to wait.
    fn rest_sends(&mut self, place: usize)
        requires { place < length self.old.connections }
        ensures { self.new ≡ self.old }
    {
        let receives = self.connections[place].ways.receives;
        let sends = Readiness::begins_to_rest(self.asked);
        self.know_connection(place, Ways { receives, sends });
    }

    /// Accepts the next connection to the port at a place.
    fn accept_at(&mut self, place: usize) -> Result<Option<ConnId>, LineFault>
        requires { place < length self.old.ports }
        ensures ports { self.new.ports ≡ self.old.ports }
        ensures stands { is_in self.new.connections ≡ accepted_after result (is_in self.old.connections) }
        ensures counts { CountsFault self.old.faults self.new.faults result }
    {
        if !self.port_is_ready(place) {
            return Ok(None);
        }
        match accept_from(&self.ports[place].listener) {
            Answered::Waits => {
                self.know_port(place, Readiness::begins_to_rest(self.asked));
                Ok(None)
            }
            Answered::Failed => Err(self.count_fault()),
            Answered::Done(stream) => match self.keep(stream) {
                Some(conn) => Ok(Some(conn)),
                None => Err(self.count_fault()),
            },
        }
    }

    /// Ends a connection that its caller has left.
    fn hung_up(&mut self, conn: ConnId) -> Received
        ensures bound { received_count (Ok result) ≡ 0 }
        ensures ports { self.new.ports ≡ self.old.ports }
        ensures stands { is_in self.new.connections ≡ received_after conn.0 (Ok result) (is_in self.old.connections) }
        ensures faults { self.new.faults ≡ self.old.faults }
    {
        self.end(conn);
        Received::HungUp
    }

    /// Receives on the connection at a place, which has that number.
    fn receive_at(
        &mut self,
        place: usize,
        conn: ConnId,
        buf: &mut [u8],
    ) -> Result<Received, LineFault>
        requires { place < length self.old.connections }
        ensures bound { received_count result ≤ length buf.new }
        ensures lent { LeavesRest result buf.old buf.new }
        ensures ports { self.new.ports ≡ self.old.ports }
        ensures stands { is_in self.new.connections ≡ received_after conn.0 result (is_in self.old.connections) }
        ensures counts { CountsFault self.old.faults self.new.faults result }
    {
        if !self.can_receive(place) {
            return Ok(Received::NoneYet);
        }
        match receive_from(&self.connections[place].stream, buf) {
            Ok(Received::NoneYet) => {
                self.rest_receives(place);
                Ok(Received::NoneYet)
            }
            Ok(Received::HungUp) => Ok(self.hung_up(conn)),
            Ok(Received::Bytes(count)) => Ok(Received::Bytes(count)),
            Err(LineFault) => Err(self.count_fault()),
        }
    }

    /// Sends on the connection at a place.
    fn send_at(&mut self, place: usize, bytes: &[u8]) -> Result<usize, LineFault>
        requires { place < length self.old.connections }
        ensures bound { sent_count result ≤ length bytes.now }
        ensures ports { self.new.ports ≡ self.old.ports }
        ensures stands { self.new.connections ≡ self.old.connections }
        ensures counts { CountsFault self.old.faults self.new.faults result }
    {
        if !self.can_send(place) {
            return Ok(0);
        }
        let written = write_to(&self.connections[place].stream, bytes);
        if matches!(&written, Answered::Waits) {
            self.rest_sends(place);
        }
        match sent(written) {
            Ok(count) => Ok(count),
            Err(LineFault) => Err(self.count_fault()),
        }
    }
}

/// What the system knows a port's socket by.
fn port_token(port: u16) -> Token {
    Token(usize::from(port))
}

/// What the system knows a connection by: no number of a port.
fn connection_token(conn: u32) -> Token {
    Token(0x1_0000 + conn as usize)
}

fn place_of_listener(ports: &[OpenPort], token: Token) -> Option<usize>
    ensures { IfSome result (λ place. place < length ports.now) }
{
    ports.iter().position(|p| port_token(p.port) == token)
}

fn place_of_stream(connections: &[OpenConnection], token: Token) -> Option<usize>
    ensures { IfSome result (λ place. place < length connections.now) }
{
    connections
        .iter()
        .position(|c| connection_token(c.conn) == token)
}

fn place_of_port(ports: &[OpenPort], port: u16) -> Option<usize>
    ensures { result ≡ position (λ p. port_of p == port) ports.now }
{
    ports.iter().position(|p| p.port == port)
}

fn place_of_connection(connections: &[OpenConnection], conn: ConnId) -> Option<usize>
    ensures { result ≡ position (λ c. number_of c == conn.0) connections.now }
{
    connections.iter().position(|c| c.conn == conn.0)
}

impl<'a, N: Net> Lines for RealLines<'a, N> {
    ghost use Rattle.std.specs.Prelude.{false};
    ghost use Rattle.host_adapters.specs.RealLines.{untold_lines};

    ghost tells = { false };

    ghost state = { λ l. untold_lines l };

    ghost peers_stand = { λ tells l. tt };

    /// Listens on a port, and takes the memory for a connection of each port, and at the first one for what the system
    /// tells of them. It fails where the port is in use.
    fn listen(&mut self, alloc: Global, port: u16) -> Result<(), ListenFault> {
        match self.ports.reserve(1) {
            Err(OutOfMemory) => return Err(ListenFault::OutOfMemory),
            Ok(()) => (),
        }
        // `reserve` counts from the connections that stand, and not from the room that was taken before.
        match self.connections.reserve(self.ports.len().saturating_add(1)) {
            Err(OutOfMemory) => return Err(ListenFault::OutOfMemory),
            Ok(()) => (),
        }
        match self.reserve_events(alloc) {
            Err(OutOfMemory) => return Err(ListenFault::OutOfMemory),
            Ok(()) => (),
        }
        match self.open(port) {
            Ok(()) => Ok(()),
            Err(_) => {
                self.count_fault();
                Err(ListenFault::Failed)
            }
        }
    }

    /// Closes the port. Whoever has connected and was not accepted is refused; the connections that stand go on.
    fn unlisten(&mut self, port: u16) {
        self.close(port);
    }

    /// Accepts the next caller of a port; none where nobody waits, while calls of the port rest, and where it is not
    /// listened on. A fault is counted where the system fails, and where no number or no place is left; that caller's
    /// connection has ended then.
    fn accept(&mut self, port: u16, _now: u64) -> Result<Option<ConnId>, LineFault> {
        match place_of_port(self.ports.as_slice(), port) {
            Some(place) => self.accept_at(place),
            None => Ok(None),
        }
    }

    /// Receives at most 64 bytes; none yet where none has come, and while calls of the connection rest. `HungUp` comes
    /// at the caller's end, and where the connection does not stand; its socket is closed then. A fault is counted
    /// where the system fails, and the connection stands.
    fn receive(&mut self, conn: ConnId, buf: &mut [u8], _now: u64) -> Result<Received, LineFault> {
        match place_of_connection(self.connections.as_slice(), conn) {
            Some(place) => self.receive_at(place, conn, buf),
            None => Ok(self.hung_up(conn)),
        }
    }

    /// Hands first bytes of a piece to the system; 0 where that would have to wait, while such calls of the connection
    /// rest, and where it does not stand. A fault is counted where the system fails, and the connection stands.
    fn send(&mut self, conn: ConnId, bytes: &[u8], _now: u64) -> Result<usize, LineFault> {
        match place_of_connection(self.connections.as_slice(), conn) {
            Some(place) => self.send_at(place, bytes),
            None => Ok(0),
        }
    }

    fn hang_up(&mut self, conn: ConnId) {
        self.end(conn);
    }

    fn faults(&self) -> u64 {
        self.faults
    }
}
