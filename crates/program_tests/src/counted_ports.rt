// Terminal lines whose ports and hang-ups are counted: each call is passed on to other lines.
use host_lines::{ConnId, LineFault, Lines, ListenFault, Received};
use std::alloc::Global;

/// Lines that pass each call on to others, how many ports are listened on, of which each is listened on once, and how
/// often a connection was hung up on.
#[derive(Drop)]
pub struct CountedPorts<L: Lines> {
    pub lines: L,
    pub ports: u64,
    pub hang_ups: u64,
}

impl<L: Lines> CountedPorts<L> {
    /// Lines of which no port is listened on yet, and with no connection.
    pub fn new(lines: L) -> CountedPorts<L> {
        CountedPorts {
            lines,
            ports: 0,
            hang_ups: 0,
        }
    }
}

impl<L: Lines> Lines for CountedPorts<L> {
    ghost tells = { L.tells };

    ghost state = { λ counted. L.state counted.lines };

    ghost peers_stand = { λ tells counted. L.peers_stand tells counted.lines };

    fn listen(&mut self, alloc: Global, port: u16) -> Result<(), ListenFault> {
        self.lines.listen(alloc, port)?;
        self.ports = self.ports.saturating_add(1);
        Ok(())
    }

    fn unlisten(&mut self, port: u16) {
        self.ports = self.ports.saturating_sub(1);
        self.lines.unlisten(port)
    }

    fn accept(&mut self, port: u16, now: u64) -> Result<Option<ConnId>, LineFault> {
        self.lines.accept(port, now)
    }

    fn receive(&mut self, conn: ConnId, buf: &mut [u8], now: u64) -> Result<Received, LineFault> {
        self.lines.receive(conn, buf, now)
    }

    fn send(&mut self, conn: ConnId, bytes: &[u8], now: u64) -> Result<usize, LineFault> {
        self.lines.send(conn, bytes, now)
    }

    fn hang_up(&mut self, conn: ConnId) {
        self.hang_ups = self.hang_ups.saturating_add(1);
        self.lines.hang_up(conn)
    }

    fn faults(&self) -> u64 {
        self.lines.faults()
    }
}
