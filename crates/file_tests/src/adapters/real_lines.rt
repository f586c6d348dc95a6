// Sockets on this machine: a byte comes through from a caller, and one goes back, on one port and on 64.
use crate::texts::holds;
use host_adapters::RealLines;
use host_lines::{ConnId, Lines, Received};
use mio::net::TcpStream;
use std::alloc::Global;
use std::io::{Read, Write};
use std::net::{Ipv4Addr, Net, SocketAddr};
use std::process::Abort;

/// The first of some ports that is free; it is listened on then. They are below those that the system gives to callers,
/// and one that is not free has raised the count of faults.
fn free_port<N: Net>(alloc: Global, lines: &mut RealLines<'_, N>) -> Result<u16, &'static str> {
    match (20_100..20_200u16).find(|port| lines.listen(alloc, *port).is_ok()) {
        Some(port) => Ok(port),
        None => Err("no port is free"),
    }
}

/// A caller of a port.
fn connected<N: Net>(net: &N, port: u16) -> Result<TcpStream, &'static str> {
    match TcpStream::connect(net, SocketAddr::from((Ipv4Addr::LOCALHOST, port))) {
        Ok(peer) => Ok(peer),
        Err(_) => Err("no caller can connect"),
    }
}

/// It is so; else why that was not tried.
fn is_so(rt: &impl Abort, found: Result<bool, &'static str>, what: &str) {
    match found {
        Ok(so) => holds(rt, so, what),
        Err(why) => holds(rt, false, why),
    }
}

/// The caller, once it was accepted.
fn accepted<N: Net>(lines: &mut RealLines<'_, N>, port: u16) -> Option<ConnId> {
    for now in 0..100_000u64 {
        if let Ok(Some(conn)) = lines.accept(port, now) {
            return Some(conn);
        }
    }
    None
}

/// Whether the peer can send a byte.
fn is_sent(peer: &mut TcpStream, byte: u8) -> bool {
    for _ in 0..100_000u64 {
        if let Ok(1) = peer.write(&[byte]) {
            return true;
        }
    }
    false
}

/// Whether that byte comes on the connection.
fn comes<N: Net>(lines: &mut RealLines<'_, N>, conn: ConnId, byte: u8) -> bool {
    let mut buf = [0];
    for now in 0..100_000u64 {
        match lines.receive(conn, &mut buf, now) {
            Ok(Received::Bytes(1)) => return buf[0] == byte,
            Ok(Received::NoneYet) => (),
            _ => return false,
        }
    }
    false
}

/// Whether a byte that is sent on the connection comes to the peer.
fn goes_back<N: Net>(
    lines: &mut RealLines<'_, N>,
    conn: ConnId,
    peer: &mut TcpStream,
    byte: u8,
) -> bool {
    let mut buf = [0];
    let mut sent = false;
    for now in 0..100_000u64 {
        if !sent {
            sent = lines.send(conn, &[byte], now) == Ok(1);
        }
        if let Ok(1) = peer.read(&mut buf) {
            return buf[0] == byte;
        }
    }
    false
}

/// Whether the peer is accepted, and a byte goes each way.
fn are_exchanged<N: Net>(lines: &mut RealLines<'_, N>, port: u16, peer: &mut TcpStream) -> bool {
    match accepted(lines, port) {
        Some(conn) => {
            is_sent(peer, b'A') && comes(lines, conn, b'A') && goes_back(lines, conn, peer, b'B')
        }
        None => false,
    }
}

fn go_each_way<N: Net>(
    net: &N,
    alloc: Global,
    lines: &mut RealLines<'_, N>,
) -> Result<bool, &'static str> {
    let port = free_port(alloc, lines)?;
    let failed = lines.faults();
    let mut peer = connected(net, port)?;
    Ok(are_exchanged(lines, port, &mut peer) && lines.faults() == failed)
}

#[test]
fn bytes_come_through_and_go_back(rt: HostRuntime) {
    let mut lines = RealLines::new(rt.alloc(), &rt);
    let found = go_each_way(&rt, rt.alloc(), &mut lines);
    is_so(&rt, found, "a byte each way");
}

/// Whether a caller at that address of this computer is let in; none where its system has no such address.
fn is_let_in<N: Net>(net: &N, lines: &mut RealLines<'_, N>, port: u16, at: Ipv4Addr) -> bool {
    match TcpStream::connect(net, SocketAddr::from((at, port))) {
        Ok(_caller) => accepted(lines, port).is_some(),
        Err(_) => false,
    }
}

fn lets_in_its_own<N: Net>(
    net: &N,
    alloc: Global,
    lines: &mut RealLines<'_, N>,
) -> Result<bool, &'static str> {
    let port = free_port(alloc, lines)?;
    let other = is_let_in(net, lines, port, Ipv4Addr::new(127, 0, 0, 2));
    let own = is_let_in(net, lines, port, Ipv4Addr::new(127, 0, 0, 1));
    Ok(own && !other)
}

// A port that is open on every address of the computer would let both in.
#[test]
fn only_callers_of_the_own_address_are_let_in(rt: HostRuntime) {
    let mut lines = RealLines::new(rt.alloc(), &rt);
    let found = lets_in_its_own(&rt, rt.alloc(), &mut lines);
    is_so(&rt, found, "127.0.0.1 is let in, and 127.0.0.2 is not");
}

fn is_let_in_late<N: Net>(
    net: &N,
    alloc: Global,
    lines: &mut RealLines<'_, N>,
) -> Result<bool, &'static str> {
    let port = free_port(alloc, lines)?;
    let failed = lines.faults();
    let early = lines.accept(port, 0);
    let mut peer = connected(net, port)?;
    let resting = lines.accept(port, 1);
    if early != Ok(None) || resting != Ok(None) {
        return Err("nobody yet");
    }
    Ok(are_exchanged(lines, port, &mut peer) && lines.faults() == failed)
}

// Nobody has called at first, and a call that would wait makes the next ones rest.
#[test]
fn a_caller_who_comes_late_is_let_in(rt: HostRuntime) {
    let mut lines = RealLines::new(rt.alloc(), &rt);
    let found = is_let_in_late(&rt, rt.alloc(), &mut lines);
    is_so(&rt, found, "the caller is let in later");
}

/// Sends pieces that nobody reads until one is not taken, and answers how many bytes were; none where a send fails or
/// all are taken.
fn fills<N: Net>(lines: &mut RealLines<'_, N>, conn: ConnId) -> Option<usize> {
    let piece = [b'x'; 4096];
    let mut count = 0usize;
    for now in 0..16_384u64 {
        match lines.send(conn, &piece, now) {
            Ok(0) => return Some(count),
            Ok(taken) => count = count.saturating_add(taken),
            Err(_) => return None,
        }
    }
    None
}

/// How many bytes come to the peer within a while, or until there are that many.
fn drained(peer: &mut TcpStream, most: usize) -> usize {
    let mut buf = [0; 4096];
    let mut count = 0usize;
    for _ in 0..200_000u64 {
        if count >= most {
            return count;
        }
        if let Ok(some) = peer.read(&mut buf) {
            count = count.saturating_add(some);
        }
    }
    count
}

/// Whether all that a socket took until it was full has come to the peer.
fn is_filled<N: Net>(
    lines: &mut RealLines<'_, N>,
    port: u16,
    peer: &mut TcpStream,
) -> Result<bool, &'static str> {
    let Some(conn) = accepted(lines, port) else {
        return Err("the caller is not let in");
    };
    match fills(lines, conn) {
        Some(count) => Ok(count > 0 && drained(peer, count.saturating_add(1)) == count),
        None => Err("the socket is never full"),
    }
}

fn takes_nothing_when_full<N: Net>(
    net: &N,
    alloc: Global,
    lines: &mut RealLines<'_, N>,
) -> Result<bool, &'static str> {
    let port = free_port(alloc, lines)?;
    let failed = lines.faults();
    let mut peer = connected(net, port)?;
    Ok(is_filled(lines, port, &mut peer)? && lines.faults() == failed)
}

// Each byte that a full socket was said to take comes to the peer, and no more; and that it is full is no fault.
#[test]
fn a_full_socket_takes_nothing(rt: HostRuntime) {
    let mut lines = RealLines::new(rt.alloc(), &rt);
    let found = takes_nothing_when_full(&rt, rt.alloc(), &mut lines);
    is_so(&rt, found, "what was taken has come");
}

/// How many ports there are in a row.
const ROW: u16 = 64;

/// Whether all ports of a row are listened on; else none of them is.
fn is_row_free<N: Net>(alloc: Global, lines: &mut RealLines<'_, N>, first: u16) -> bool {
    for port in first..first.saturating_add(ROW) {
        if lines.listen(alloc, port).is_err() {
            for taken in first..port {
                lines.unlisten(taken);
            }
            return false;
        }
    }
    true
}

/// The first port of a row of which all are listened on then.
fn free_row<N: Net>(alloc: Global, lines: &mut RealLines<'_, N>) -> Result<u16, &'static str> {
    for turn in 0..100u16 {
        let first = 21_000 + 70 * turn;
        if is_row_free(alloc, lines, first) {
            return Ok(first);
        }
    }
    Err("no row of ports is free")
}

/// Asks each port of a row in turn for a caller, so many times, and answers who was let in, and at which port.
fn first_in_row<N: Net>(
    lines: &mut RealLines<'_, N>,
    first: u16,
    rounds: u64,
) -> Option<(u16, ConnId)> {
    for now in 0..rounds {
        for port in first..first.saturating_add(ROW) {
            if let Ok(Some(conn)) = lines.accept(port, now) {
                return Some((port, conn));
            }
        }
    }
    None
}

/// Whether the connection is the one on which that byte comes, while the ports of a row are asked in turn.
fn comes_beside<N: Net>(lines: &mut RealLines<'_, N>, first: u16, conn: ConnId, byte: u8) -> bool {
    let mut buf = [0];
    for now in 0..10_000u64 {
        if first_in_row(lines, first, 1).is_some() {
            return false;
        }
        match lines.receive(conn, &mut buf, now) {
            Ok(Received::Bytes(1)) => return buf[0] == byte,
            Ok(Received::NoneYet) => (),
            _ => return false,
        }
    }
    false
}

/// Whether a caller of the port at that place of a row is let in there, and nobody elsewhere, and is heard.
fn is_let_in_at<N: Net>(
    net: &N,
    lines: &mut RealLines<'_, N>,
    first: u16,
    place: u16,
) -> Result<bool, &'static str> {
    let port = first.saturating_add(place);
    let mut peer = connected(net, port)?;
    match first_in_row(lines, first, 10_000) {
        Some((at, conn)) => {
            Ok(
                at == port
                    && comes_after_a_pause(lines, first, conn, &mut peer)
                    && goes_back(lines, conn, &mut peer, b'B'),
            )
        }
        None => Ok(false),
    }
}

/// Whether a byte comes that was sent when the connection had been asked for a while in vain.
fn comes_after_a_pause<N: Net>(
    lines: &mut RealLines<'_, N>,
    first: u16,
    conn: ConnId,
    peer: &mut TcpStream,
) -> bool {
    let mut buf = [0];
    for now in 0..100u64 {
        if lines.receive(conn, &mut buf, now) != Ok(Received::NoneYet) {
            return false;
        }
    }
    is_sent(peer, b'A') && comes_beside(lines, first, conn, b'A')
}

fn each_is_found<N: Net>(
    net: &N,
    alloc: Global,
    lines: &mut RealLines<'_, N>,
) -> Result<bool, &'static str> {
    let first = free_row(alloc, lines)?;
    let failed = lines.faults();
    if first_in_row(lines, first, 200).is_some() {
        return Err("nobody has called yet");
    }
    let found = is_let_in_at(net, lines, first, 39)?
        && is_let_in_at(net, lines, first, 63)?
        && is_let_in_at(net, lines, first, 0)?;
    Ok(found && lines.faults() == failed)
}

// Nobody has called any of 64 ports for a while; then somebody calls the 40th, the last and the first.
#[test]
fn a_caller_is_found_among_64_ports(rt: HostRuntime) {
    let mut lines = RealLines::new(rt.alloc(), &rt);
    let found = each_is_found(&rt, rt.alloc(), &mut lines);
    is_so(&rt, found, "a caller at its port, and a byte each way");
}

/// Whether a connection that its caller has left ends, where it was asked for a while in vain before.
fn ends_when_left<N: Net>(lines: &mut RealLines<'_, N>, port: u16, peer: TcpStream) -> bool {
    let Some(conn) = accepted(lines, port) else {
        return false;
    };
    let mut buf = [0];
    for now in 0..100u64 {
        if lines.receive(conn, &mut buf, now) != Ok(Received::NoneYet) {
            return false;
        }
    }
    drop(peer);
    for now in 0..10_000u64 {
        if lines.receive(conn, &mut buf, now) == Ok(Received::HungUp) {
            return true;
        }
    }
    false
}

fn a_leaver_is_seen<N: Net>(
    net: &N,
    alloc: Global,
    lines: &mut RealLines<'_, N>,
) -> Result<bool, &'static str> {
    let port = free_port(alloc, lines)?;
    let failed = lines.faults();
    let first = connected(net, port)?;
    if !ends_when_left(lines, port, first) {
        return Ok(false);
    }
    let mut second = connected(net, port)?;
    Ok(are_exchanged(lines, port, &mut second) && lines.faults() == failed)
}

// A hang-up is seen though nothing had come before, and the next caller is let in.
#[test]
fn a_caller_who_leaves_is_seen(rt: HostRuntime) {
    let mut lines = RealLines::new(rt.alloc(), &rt);
    let found = a_leaver_is_seen(&rt, rt.alloc(), &mut lines);
    is_so(&rt, found, "a hang-up, and a caller behind it");
}

fn is_sent_again<N: Net>(
    net: &N,
    alloc: Global,
    lines: &mut RealLines<'_, N>,
) -> Result<bool, &'static str> {
    let port = free_port(alloc, lines)?;
    let failed = lines.faults();
    let mut peer = connected(net, port)?;
    if !is_filled(lines, port, &mut peer)? {
        return Ok(false);
    }
    Ok(lines.faults() == failed && takes_again(lines, &mut peer))
}

/// Whether the connection of the first number takes a byte once its caller has read what stood there.
fn takes_again<N: Net>(lines: &mut RealLines<'_, N>, peer: &mut TcpStream) -> bool {
    let mut buf = [0];
    for now in 0..10_000u64 {
        if lines.send(ConnId(0), b"again", now) == Ok(5) {
            return drained(peer, 5) == 5
                && lines.receive(ConnId(0), &mut buf, now) == Ok(Received::NoneYet);
        }
    }
    false
}

// What a full socket did not take it takes when its caller has read: calls that send rest no longer then.
#[test]
fn a_full_socket_takes_again(rt: HostRuntime) {
    let mut lines = RealLines::new(rt.alloc(), &rt);
    let found = is_sent_again(&rt, rt.alloc(), &mut lines);
    is_so(&rt, found, "a full socket that was read");
}

/// A caller of each port of a row.
fn call_all<N: Net>(net: &N, alloc: Global, first: u16) -> Result<Vec<TcpStream>, &'static str> {
    let mut peers = Vec::new(alloc);
    for port in first..first.saturating_add(ROW) {
        let peer = connected(net, port)?;
        if peers.push(peer).is_err() {
            return Err("no memory for callers");
        }
    }
    Ok(peers)
}

/// How many callers of a row are let in within a while.
fn let_in<N: Net>(lines: &mut RealLines<'_, N>, first: u16) -> usize {
    let mut count = 0usize;
    for now in 0..10_000u64 {
        for port in first..first.saturating_add(ROW) {
            if let Ok(Some(_)) = lines.accept(port, now) {
                count = count.saturating_add(1);
            }
        }
    }
    count
}

fn all_are_let_in<N: Net>(
    net: &N,
    alloc: Global,
    lines: &mut RealLines<'_, N>,
) -> Result<bool, &'static str> {
    let first = free_row(alloc, lines)?;
    let failed = lines.faults();
    let peers = call_all(net, alloc, first)?;
    let count = let_in(lines, first);
    Ok(count == peers.len() && lines.faults() == failed)
}

// There is room for a connection of each port.
#[test]
fn callers_of_all_64_ports_are_let_in(rt: HostRuntime) {
    let mut lines = RealLines::new(rt.alloc(), &rt);
    let found = all_are_let_in(&rt, rt.alloc(), &mut lines);
    is_so(&rt, found, "64 callers");
}
