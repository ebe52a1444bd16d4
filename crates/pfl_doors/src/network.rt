//! The port that is listened on, and the connections that come.

ghost use Rattle.std.specs.Prelude.{◌≡◌, ◌+◌, ◌≤◌, ◌++◌, [], ◌∷◌, false, length, None, IfOk, OnOk, OnErr};
ghost use Rattle.std.specs.Net.Socket.{socket_ip, socket_port};
ghost use Rattle.std.specs.declared.net.ip_addr.IpAddr.TheVariants as ip;
ghost use Rattle.pfl_base.specs.Devices.{has_failed};

use crate::doors::{DoorFault, Doors, Sides, Visit};
use crate::request::{DECIDING, judged_so_far};
use pfl_base::Std;
use std::alloc::Global;
use std::io::{self, ErrorKind};
use std::marker::Model;
use std::net::{Ipv4Addr, Net, Shutdown, SocketAddr, TcpListener, TcpStream};
use std::snapshot::Snapshot;
use std::sync::Wait;
use std::time::Duration;

/// For how many milliseconds a session that follows the journal waits for its next line before it looks at the journal again, and
/// for how many a connection that has come is given to say that it is a browser's.
const PAUSE: u64 = 20;

/// A reader or a writer of a connection.
pub type Side = Std<TcpStream>;

/// The address of the port at 127.0.0.1, which other machines do not reach.
fn local(port: u16) -> SocketAddr
    ensures ip { socket_ip result ≡ ip.V4 Ipv4Addr.LOCALHOST }
    ensures port { socket_port result ≡ port }
{
    SocketAddr::from((Ipv4Addr::LOCALHOST, port))
}

/// Waits a short while for bytes of the connection, or its end, which stay to be read: how many there are, none at the end. Afterwards
/// the connection waits for as long as it did before.
fn peek_a_while(stream: &TcpStream, bytes: &mut [u8]) -> io::Result<usize>
    ensures few { IfOk result (λ n. n ≤ length bytes.new) }
    ensures room { length bytes.new ≡ length bytes.old }
{
    stream.set_read_timeout(Some(Duration::from_millis(PAUSE)))?;
    let peeked = stream.peek(bytes);
    stream.set_read_timeout(None)?;
    peeked
}

/// Whether a byte waits to be read, or the end. Where that cannot be found out, it is taken to be so: the session then reads, and a
/// connection that is broken fails there.
fn hears(stream: &TcpStream) -> bool {
    match peek_a_while(stream, &mut [0]) {
        Ok(_) => true,
        Err(error) => !matches!(
            error.kind(),
            ErrorKind::WouldBlock | ErrorKind::TimedOut | ErrorKind::Interrupted
        ),
    }
}

/// Whether the first bytes of a connection have come, and are a request's.
fn is_browser(stream: &TcpStream) -> bool {
    let mut bytes = [0; DECIDING];
    match peek_a_while(stream, &mut bytes) {
        Ok(count) => judged_so_far(&bytes[..count]) == Some(true),
        Err(_) => false,
    }
}

/// A connection that has a session's seat, and the two sides of it that were given.
#[derive(Drop)]
struct Visitor {
    stream: TcpStream,
    sides: Snapshot<Sides<Side, Side>>,
}

/// The port of 127.0.0.1 that sessions come to over the network. Their replies are sent at once, where the system can.
#[derive(Drop)]
pub struct Network<'a, R> {
    rt: &'a R,
    alloc: Global,
    port: Option<u16>,
    listener: Option<TcpListener>,
    visitors: Vec<Visitor>,
    turned: u64,
    returned: Vec<Sides<Side, Side>>,
}

/// The two sides of a connection.
fn sides_of(stream: &TcpStream) -> io::Result<Sides<Side, Side>>
    ensures unfailed { IfOk result (λ s. (has_failed s.reader ≡ false) × (has_failed s.writer ≡ false)) }
{
    Ok(Sides {
        reader: Std::new(stream.try_clone()?),
        writer: Std::new(stream.try_clone()?),
    })
}

impl<'a, R> Model for Network<'a, R> {
    ghost use Rattle.std.specs.Prelude.{map};
    ghost use Rattle.pfl_doors.specs.Visits.{Entrance};
    ghost use Rattle.pfl_doors.specs.Networks.{Connection};

    ghost Value = { Entrance Connection Connection };

    ghost view = { λ n. record { port = n.port; given = map (λ v. v.sides.value) n.visitors.items; turned = n.turned; returned = n.returned.items } };
}

impl<'a, R> Network<'a, R> {
    /// No port is listened on.
    pub fn new(rt: &'a R, alloc: Global) -> Self
        ensures { result ≡ record { port = None; given = []; turned = 0; returned = [] } }
    {
        Network {
            rt,
            alloc,
            port: None,
            listener: None,
            visitors: Vec::new(alloc),
            turned: 0,
            returned: Vec::new(alloc),
        }
    }

    /// The connection of a session, if it has one.
    fn stream(&self, session: u32) -> Option<&TcpStream> {
        let index = session.checked_sub(1)?;
        Some(&self.visitors.get(index as usize)?.stream)
    }

    /// Takes the connection in.
    fn admit(&mut self, stream: TcpStream) -> Result<Sides<Side, Side>, DoorFault>
        ensures given { IfOk result (λ s. self.new ≡ record self.old { given = self.old.given ++ s ∷ [] }) }
        ensures unfailed { IfOk result (λ s. (has_failed s.reader ≡ false) × (has_failed s.writer ≡ false)) }
        ensures not { OnErr result (self.new ≡ self.old) }
    {
        let _ = stream.set_nodelay(true);
        let Ok(sides) = sides_of(&stream) else {
            return Err(DoorFault::Network);
        };
        let visitor = Visitor {
            stream,
            sides: Snapshot::of(&sides),
        };
        match self.visitors.push(visitor) {
            Ok(()) => Ok(sides),
            Err(_) => Err(DoorFault::NoMemory),
        }
    }

    /// Counts one browser more.
    fn turn_away(&mut self) -> Result<(), DoorFault>
        ensures turned { OnOk result (self.new ≡ record self.old { turned = self.old.turned + 1 }) }
        ensures not { OnErr result (self.new ≡ self.old) }
    {
        match self.turned.checked_add(1) {
            Some(turned) => {
                self.turned = turned;
                Ok(())
            }
            None => Err(DoorFault::Network),
        }
    }
}

impl<R: Net<Listener = TcpListener, Stream = TcpStream>> Doors for Network<'_, R> {
    type Reader = Side;

    type Writer = Side;

    ghost listens = { λ n. n.port };

    ghost given = { λ n. n.given };

    ghost turned = { λ n. n.turned };

    ghost returned = { λ n. n.returned };

    ghost heard = { λ _. Unit {0} };

    fn listen(&mut self, port: u16) -> Result<(), DoorFault> {
        match self.rt.bind(local(port)) {
            Ok(listener) => {
                self.listener = Some(listener);
                self.port = Some(port);
                self.visitors = Vec::new(self.alloc);
                self.turned = 0;
                Ok(())
            }
            Err(_) => Err(DoorFault::Network),
        }
    }

    /// A browser that has sent its request within 20 ms is turned away.
    fn accept(&mut self) -> Result<Visit<Side, Side>, DoorFault> {
        let Some(listener) = &self.listener else {
            return Err(DoorFault::Network);
        };
        let Ok((stream, _)) = listener.accept() else {
            return Err(DoorFault::Network);
        };
        if is_browser(&stream) {
            self.turn_away()?;
            return Ok(Visit::Browser);
        }
        Ok(Visit::Session(self.admit(stream)?))
    }

    fn close(&mut self) {
        self.listener = None;
    }

    /// Whether a byte of the session's connection waits to be read, or its end. It waits for that 20 ms at most.
    fn hears<W: Wait>(&self, _rt: &W, session: u32) -> bool {
        match self.stream(session) {
            Some(stream) => hears(stream),
            None => true,
        }
    }

    /// Shuts the sending side of the session's connection, so that who reads there comes to the end. Where the other end is gone there
    /// is nothing to shut.
    fn end(&self, session: u32) {
        if let Some(stream) = self.stream(session) {
            let _ = stream.shutdown(Shutdown::Write);
        }
    }

    /// What is left of the connections is kept, and nothing more is done with it.
    fn take_back(&mut self, sides: Vec<Sides<Side, Side>>)
        ensures returned { self.new.returned ≡ sides.items }
        ensures port { self.new.port ≡ self.old.port }
        ensures given { self.new.given ≡ self.old.given }
        ensures turned { self.new.turned ≡ self.old.turned }
    {
        self.returned = sides;
    }
}
