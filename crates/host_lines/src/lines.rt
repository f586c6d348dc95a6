ghost use Rattle.std.specs.Prelude.{◌≡◌, ◌≤◌, ℕ, Bool, IsTrue, length, take};
ghost use Rattle.fault_counts.specs.Faults.{CountsFault};
ghost use Rattle.host_lines.specs.Traffic.{accepting, receiving, sending, sent_bytes};
ghost use Rattle.host_lines.specs.Told.{Gives, heard_more};
ghost use Rattle.host_lines.specs.State.{LineState, TellsPeers, parties, without_one};
ghost use Rattle.host_lines.specs.LineCalls.{Listens, Accepts, Receives, OthersStay, ports_after, accepted_after, received_after, listen_faults, accept_answer, receive_answer, send_answer, sent_count, received_count, LeavesRest};

use std::alloc::Global;

/// A connection. Where contracts can name traffic, no number is given twice.
#[derive(Clone, Copy, Debug, PartialEq, Eq)]
pub struct ConnId(pub u32);

/// A call on a line failed, and was counted.
#[derive(Clone, Copy, Debug, PartialEq, Eq)]
pub struct LineFault;

/// Why a port is not listened on. Nothing has changed, but that `Failed` was counted.
#[derive(Clone, Copy, Debug, PartialEq, Eq)]
pub enum ListenFault {
    Failed,
    OutOfMemory,
}

/// What has come on a connection.
#[derive(Clone, Copy, Debug, PartialEq, Eq)]
pub enum Received {
    /// So many bytes, in the front of the buffer.
    Bytes(usize),
    NoneYet,
    /// The caller has gone, or the connection had ended before.
    HungUp,
}

/// A byte that was sent, and to which caller.
#[derive(Clone, Copy, Debug, PartialEq, Eq)]
pub struct Sent {
    pub caller: u32,
    pub byte: u8,
}

/// Ports to listen on, and the connections that callers make to them. `now` is the time, in instructions.
pub trait Lines {
    /// Whether contracts can name what comes: those of lines in memory, and not those of real ones.
    ghost tells: { Bool };

    /// What contracts see of them.
    ghost state: { Self → LineState };

    /// Listens on a port. `Failed` counts one fault; `OutOfMemory` comes before any call is made, and counts none.
    /// After either the ports that are listened on are those of before.
    fn listen(&mut self, alloc: Global, port: u16) -> Result<(), ListenFault>
        ensures told { IsTrue tells → Listens (state self.old).told (state self.new).told result }
        ensures ports { (state self.new).listens ≡ ports_after port result (state self.old).listens }
        ensures stands { (state self.new).stands ≡ (state self.old).stands }
        ensures given { IsTrue tells → (state self.new).given ≡ (state self.old).given }
        ensures peers { parties (state self.new) ≡ parties (state self.old) }
        ensures sent { (state self.new).sent ≡ (state self.old).sent }
        ensures counts { (state self.new).faults ≡ listen_faults result (state self.old).faults };

    /// Listens on a port no longer. The connections to it stand.
    fn unlisten(&mut self, port: u16)
        ensures told { (state self.new).told ≡ (state self.old).told }
        ensures ports { (state self.new).listens ≡ without_one port (state self.old).listens }
        ensures stands { (state self.new).stands ≡ (state self.old).stands }
        ensures given { IsTrue tells → (state self.new).given ≡ (state self.old).given }
        ensures peers { parties (state self.new) ≡ parties (state self.old) }
        ensures sent { (state self.new).sent ≡ (state self.old).sent }
        ensures counts { (state self.new).faults ≡ (state self.old).faults };

    /// Accepts the first connection to a port that is due, which stands then; none where nobody has connected. A
    /// `LineFault` counts one fault; nobody was accepted then, and whoever has connected still waits.
    fn accept(&mut self, port: u16, now: u64) -> Result<Option<ConnId>, LineFault>
        ensures told { IsTrue tells → Gives (state self.old).told (state self.new).told
            (accepting port now) (accept_answer (parties (state self.new)) result) }
        ensures ports { (state self.new).listens ≡ (state self.old).listens }
        ensures stands { (state self.new).stands ≡ accepted_after result (state self.old).stands }
        ensures given { IsTrue tells → (state self.new).given ≡ accepted_after result (state self.old).given }
        ensures peers { IsTrue tells → Accepts (state self.old) (state self.new) result }
        ensures sent { (state self.new).sent ≡ (state self.old).sent }
        ensures counts { CountsFault (state self.old).faults (state self.new).faults result };

    /// Puts bytes that have come on a connection into the front of `buf`, and leaves the rest of it as it was: all of
    /// it where none came. `HungUp` ends the connection, and is the answer for one that does not stand. A `LineFault`
    /// counts one fault; nothing was received then, and the connection stands as before.
    fn receive(&mut self, conn: ConnId, buf: &mut [u8], now: u64) -> Result<Received, LineFault>
        ensures bound { received_count result ≤ length buf.new }
        ensures lent { LeavesRest result buf.old buf.new }
        ensures told { IsTrue tells → Gives (state self.old).told (state self.new).told
            (receiving (parties (state self.old) conn.0) (length buf.old) now) (receive_answer buf.new result) }
        ensures ports { (state self.new).listens ≡ (state self.old).listens }
        ensures stands { (state self.new).stands ≡ received_after conn.0 result (state self.old).stands }
        ensures given { IsTrue tells → (state self.new).given ≡ (state self.old).given }
        ensures peers { IsTrue tells → Receives conn.0 (state self.old) (state self.new) result }
        ensures sent { (state self.new).sent ≡ (state self.old).sent }
        ensures counts { CountsFault (state self.old).faults (state self.new).faults result };

    /// Sends first bytes of a piece, and answers how many, which may be 0, and is where the connection does not
    /// stand. A `LineFault` counts one fault; nothing was sent then, and the connection stands as before.
    fn send(&mut self, conn: ConnId, bytes: &[u8], now: u64) -> Result<usize, LineFault>
        ensures bound { sent_count result ≤ length bytes.now }
        ensures told { IsTrue tells → Gives (state self.old).told (state self.new).told
            (sending (parties (state self.old) conn.0) (length bytes.now)) (send_answer (length bytes.now) result) }
        ensures ports { (state self.new).listens ≡ (state self.old).listens }
        ensures stands { (state self.new).stands ≡ (state self.old).stands }
        ensures given { IsTrue tells → (state self.new).given ≡ (state self.old).given }
        ensures peers { parties (state self.new) ≡ parties (state self.old) }
        ensures sent { IsTrue tells → (state self.new).sent ≡ heard_more (state self.old).sent
            (sent_bytes (parties (state self.old) conn.0) (take (sent_count result) bytes.now)) }
        ensures counts { CountsFault (state self.old).faults (state self.new).faults result };

    /// Ends a connection, if it stands.
    fn hang_up(&mut self, conn: ConnId)
        ensures told { (state self.new).told ≡ (state self.old).told }
        ensures ports { (state self.new).listens ≡ (state self.old).listens }
        ensures stands { (state self.new).stands ≡ without_one conn.0 (state self.old).stands }
        ensures given { IsTrue tells → (state self.new).given ≡ (state self.old).given }
        ensures peers { IsTrue tells → OthersStay conn.0 (state self.old) (state self.new) }
        ensures sent { (state self.new).sent ≡ (state self.old).sent }
        ensures counts { (state self.new).faults ≡ (state self.old).faults };

    /// How often a call has failed. The count stands still at its type's end.
    fn faults(&self) -> u64
        ensures { result ≡ (state self.now).faults };

    /// Where traffic is told, a connection that stands was accepted and has a caller, and nobody is behind another one.
    ghost peers_stand: { IsTrue tells → (s : Self) → TellsPeers (state s).told (state s) };
}
