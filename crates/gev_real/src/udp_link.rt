ghost use Rattle.std.specs.Prelude.{◌≡◌, ◌≤◌, None, length, IfOk, IfSome, OnErr};
ghost use Rattle.gev_links.specs.Faults.{Rose};

use crate::call_fault::{Call, CallFault, bind_fault, connect_fault};
use crate::sent_commands::{SentCommand, SentCommands};
use crate::socket_waits::{Patience, comes_within, gather};
use gev_far::{PeekLink, TimedLink};
use gev_links::{Failed, Link, ShortLink};
use gev_types::Peer;
use std::io;
use std::net::{IpAddr, Ipv4Addr, Net, SocketAddr, UdpSocket};
use std::os::fd::AsRawFd;

/// How long a receive waits where nothing came, in milliseconds.
const RECEIVE_LIMIT: i32 = 1;

/// The same of a link towards a device, behind whose images the stream is silent for many milliseconds.
const FAR_LIMIT: i32 = 4;

/// The longest wait of a receive that is told how long to wait, in milliseconds.
const LONGEST_WAIT: u32 = 0x7fff_ffff;

/// How many receives of a link that doesn't wait answer that nothing came, behind a look that found nothing: soon after it
/// sent or received, when an answer may come, and later.
const SPARED_SOON: u8 = 7;

const SPARED_LATER: u8 = 63;

/// How many receives behind what was sent or received are soon.
const SOON: u32 = 1000;

/// How often a datagram is handed to a system that can't take it and then has room.
const SEND_TRIES: u32 = 1000;

/// The room that each socket asks for, in bytes, for datagrams that came and weren't received.
const ROOM: u32 = 0x0200_0000;

/// The room that a socket at the control port of a camera asks for instead, in bytes: for 64 commands, however long each is.
/// Behind many more a camera would come to a command only when it isn't waited for any more.
const COMMANDS_ROOM: u32 = 98_304;

/// The port of a camera's control channel (GigE Vision 2.0, GVCP).
const CONTROL_PORT: u16 = 3956;

/// The most that the system's call can be asked for, in bytes.
const MOST_ROOM: u32 = 0x7fff_ffff;

/// A UDP socket of IPv4, which is connected to nobody. It tells nothing of what it sends and receives.
///
/// A send that the system can't take at once waits for room: between two receives for a second in all. One that fails
/// behind one that succeeded is as a datagram that was lost on the way, and no fault.
///
/// ```
/// // the stream of a camera, at port 50000 of each address of this machine
/// let own = Peer { address: 0, port: 50000 };
/// let mut link = UdpLink::open(&rt, own, true)?;
/// link.ask_room(0x0800_0000);
/// let mut out = [0; 9000];
/// if let Ok(Some((count, sender))) = link.recv(&mut out) {
///     println!(rt; "{count} bytes from {:08x}", sender.address)?;
/// }
/// ```
#[derive(Drop)]
pub struct UdpLink {
    socket: UdpSocket,
    peer: Peer,
    waits: bool,
    far: bool,
    spared: u8,
    quiet: u32,
    patience: Patience,
    has_sent: bool,
    commands: Option<SentCommands>,
    fault: Option<CallFault>,
    faults: u64,
}

/// This machine alone, with a port that the system gives.
pub(crate) const LOCALHOST: Peer = Peer {
    address: 0x7f00_0001,
    port: 0,
};

/// Each address of this machine, with a port that the system gives.
const ANYWHERE: Peer = Peer {
    address: 0,
    port: 0,
};

/// The address of a peer.
fn address_of(peer: Peer) -> SocketAddr {
    SocketAddr::new(IpAddr::V4(Ipv4Addr::from(peer.address)), peer.port)
}

/// The peer of an address. The sockets are of IPv4 alone, so no other address comes.
fn peer_at(address: SocketAddr) -> Peer {
    let number = match address.ip() {
        IpAddr::V4(ip) => u32::from(ip),
        IpAddr::V6(_) => 0,
    };
    Peer {
        address: number,
        port: address.port(),
    }
}

/// The address of this machine from which datagrams go to a peer, with a port that the system gives. A socket
/// that is connected to the peer tells it; nothing is sent.
pub(crate) fn own_towards<N: Net>(net: &N, peer: Peer) -> Result<Peer, CallFault> {
    let socket = UdpSocket::bind(net, address_of(ANYWHERE)).map_err(bind_fault)?;
    socket.connect(address_of(peer)).map_err(connect_fault)?;
    let own = peer_at(socket.local_addr().map_err(connect_fault)?);
    Ok(Peer {
        address: own.address,
        port: 0,
    })
}

/// Asks the system for so much room for datagrams that wait. A link works with less of it, so a refusal is none
/// of the link's faults.
fn ask_room_of(socket: &UdpSocket, room: u32) {
    let [a, b, c, d] = room.min(MOST_ROOM).to_ne_bytes();
    let value = [a, b, c, d, 0, 0, 0, 0, 0, 0, 0, 0, 0, 0, 0, 0];
    let _ = unsafe {
        libc::net::setsockopt(
            socket.as_raw_fd(),
            libc::net::SOL_SOCKET,
            libc::net::SO_RCVBUF,
            &value,
            4,
        )
    };
}

/// The room that a socket at this address asks for, in bytes.
fn room_at(own: Peer) -> u32 {
    if own.port == CONTROL_PORT {
        COMMANDS_ROOM
    } else {
        ROOM
    }
}

/// How much room the system gave, in bytes, with what it keeps beside the datagrams; 0 where it doesn't tell.
fn room_of(socket: &UdpSocket) -> u64 {
    let mut value = [0; 16];
    let mut len = 4;
    let status = unsafe {
        libc::net::getsockopt(
            socket.as_raw_fd(),
            libc::net::SOL_SOCKET,
            libc::net::SO_RCVBUF,
            &mut value,
            &mut len,
        )
    };
    if status != 0 {
        return 0;
    }
    let [a, b, c, d, ..] = value;
    u64::from(u32::from_ne_bytes([a, b, c, d]))
}

/// Whether an error says only that no datagram is there, or no room for one.
fn is_nothing(kind: io::ErrorKind) -> bool {
    matches!(
        kind,
        io::ErrorKind::WouldBlock | io::ErrorKind::TimedOut | io::ErrorKind::Interrupted
    )
}

/// Receives a datagram, or looks at it, where it `stays` for a later receive.
fn receive_or_look(
    socket: &UdpSocket,
    out: &mut [u8],
    stays: bool,
) -> io::Result<(usize, SocketAddr)>
    ensures { IfOk result (λ came. came.0 ≤ length out.old) }
{
    if stays {
        return socket.peek_from(out);
    }
    socket.recv_from(out)
}

/// Receives a datagram that waits, or looks at it, if there is one.
fn receive_waiting(
    socket: &UdpSocket,
    out: &mut [u8],
    stays: bool,
) -> io::Result<Option<(usize, Peer)>>
    ensures { IfOk result (λ came. IfSome came (λ datagram. datagram.0 ≤ length out.old)) }
{
    match receive_or_look(socket, out, stays) {
        Ok(came) => Ok(Some((came.0, peer_at(came.1)))),
        Err(error) => {
            if is_nothing(error.kind()) {
                Ok(None)
            } else {
                Err(error)
            }
        }
    }
}

/// How many receives are spared so many receives behind what was sent or received.
fn spared_behind(quiet: u32) -> u8 {
    if quiet < SOON {
        SPARED_SOON
    } else {
        SPARED_LATER
    }
}

/// Whether no datagram was there.
fn is_none<E>(looked: &Result<Option<(usize, Peer)>, E>) -> bool {
    match looked {
        Ok(came) => came.is_none(),
        Err(_) => false,
    }
}

/// A datagram goes out whole or not at all.
fn check_whole(count: usize, bytes: &[u8]) -> io::Result<()> {
    if count == bytes.len() {
        Ok(())
    } else {
        Err(io::Error::from(io::ErrorKind::WriteZero))
    }
}

/// Hands a datagram to the system. One that it can't take at once waits for room while the turn has patience.
fn send_waiting(
    socket: &UdpSocket,
    patience: &mut Patience,
    peer: Peer,
    bytes: &[u8],
) -> io::Result<()> {
    for _ in 0..SEND_TRIES {
        match socket.send_to(bytes, address_of(peer)) {
            Ok(count) => return check_whole(count, bytes),
            Err(error) => {
                if !is_nothing(error.kind()) || !patience.waits_for_room(socket) {
                    return Err(error);
                }
            }
        }
    }
    Err(io::Error::from(io::ErrorKind::WouldBlock))
}

impl UdpLink {
    /// A new socket at this address and port of this machine. Address 0 stands for each of its addresses, and port 0
    /// for one that the system gives. Where `waits` says so a receive that finds nothing waits for at most a
    /// millisecond, and looks once more where something came then; else it looks once, and some receives behind a look
    /// that found nothing don't look. The socket has asked for
    /// room as `ask_room` does, of 32 MiB: by default the system holds fewer than half of a frame's packets. One at
    /// port 3956, where a camera hears commands, has asked for what 64 of them need.
    pub fn open<N: Net>(net: &N, own: Peer, waits: bool) -> io::Result<UdpLink>
        ensures { IfOk result (λ link. link.faults ≡ 0) }
    {
        let socket = UdpSocket::bind(net, address_of(own))?;
        socket.set_nonblocking(true)?;
        ask_room_of(&socket, room_at(own));
        let peer = peer_at(socket.local_addr()?);
        Ok(UdpLink {
            socket,
            peer,
            waits,
            far: false,
            spared: 0,
            quiet: 0,
            patience: Patience::new(),
            has_sent: false,
            commands: None,
            fault: None,
            faults: 0,
        })
    }

    /// A new socket at this address of this machine, whose receives that find nothing wait for at most 4 milliseconds, and
    /// where something came then, let more come for some 200 microseconds before they look once more.
    pub(crate) fn open_far<N: Net>(net: &N, own: Peer) -> io::Result<UdpLink>
        ensures { IfOk result (λ link. link.faults ≡ 0) }
    {
        let mut link = UdpLink::open(net, own, true)?;
        link.far = true;
        Ok(link)
    }

    /// A new socket at each address of this machine, which may send to broadcast addresses.
    pub(crate) fn open_broadcasting<N: Net>(net: &N) -> io::Result<UdpLink>
        ensures { IfOk result (λ link. link.faults ≡ 0) }
    {
        let link = UdpLink::open(net, ANYWHERE, true)?;
        link.socket.set_broadcast(true)?;
        Ok(link)
    }

    /// Asks the system for so many bytes of room for datagrams that came and weren't received yet. It gives as
    /// much as it allows, mostly by `net.core.rmem_max`, and doesn't tell when that is less.
    pub fn ask_room(&self, bytes: u32) {
        ask_room_of(&self.socket, bytes);
    }

    /// How many bytes of room the system gave for datagrams that wait, with what it keeps beside them; 0 where it
    /// doesn't tell.
    pub fn room(&self) -> u64 {
        room_of(&self.socket)
    }

    /// Waits for a datagram: whether one came.
    fn comes_soon(&self) -> bool {
        if !self.far {
            return comes_within(&self.socket, RECEIVE_LIMIT);
        }
        let came = comes_within(&self.socket, FAR_LIMIT);
        if came {
            gather();
        }
        came
    }

    /// Receives into a slice of any length, or looks; where nothing is there, and something comes soon, does so once more.
    fn receive(&mut self, out: &mut [u8], stays: bool) -> Result<Option<(usize, Peer)>, Failed>
        ensures count { IfOk result (λ came. IfSome came (λ datagram. datagram.0 ≤ length out.old)) }
        ensures no_fault { IfOk result (λ _. self.new.faults ≡ self.old.faults) }
        ensures failed { OnErr result (Rose self.old.faults self.new.faults) }
        ensures never_falls { self.old.faults ≤ self.new.faults }
        ensures address { self.new.peer ≡ self.old.peer }
    {
        let mut looked = receive_waiting(&self.socket, out, stays);
        if self.waits && is_none(&looked) && self.comes_soon() {
            looked = receive_waiting(&self.socket, out, stays);
        }
        match looked {
            Ok(came) => Ok(came),
            Err(error) => Err(self.fail(Call::Receive, error)),
        }
    }

    /// Receives; where nothing is there, and something comes within so many milliseconds, does so once more.
    fn receive_within(
        &mut self,
        out: &mut [u8],
        millis: u32,
    ) -> Result<Option<(usize, Peer)>, Failed>
        ensures count { IfOk result (λ came. IfSome came (λ datagram. datagram.0 ≤ length out.old)) }
        ensures no_fault { IfOk result (λ _. self.new.faults ≡ self.old.faults) }
        ensures failed { OnErr result (Rose self.old.faults self.new.faults) }
        ensures never_falls { self.old.faults ≤ self.new.faults }
        ensures address { self.new.peer ≡ self.old.peer }
    {
        self.patience = Patience::new();
        let limit = millis.min(LONGEST_WAIT) as i32;
        let mut looked = receive_waiting(&self.socket, out, false);
        if limit > 0 && is_none(&looked) && comes_within(&self.socket, limit) {
            looked = receive_waiting(&self.socket, out, false);
        }
        match looked {
            Ok(came) => Ok(came),
            Err(error) => Err(self.fail(Call::Receive, error)),
        }
    }

    /// The same of a link that doesn't wait: behind a receive that found nothing the next ones don't ask the system. A
    /// reader makes such a receive for each datagram of its stream.
    fn receive_sparing(&mut self, out: &mut [u8]) -> Result<Option<(usize, Peer)>, Failed>
        ensures count { IfOk result (λ came. IfSome came (λ datagram. datagram.0 ≤ length out.old)) }
        ensures no_fault { IfOk result (λ _. self.new.faults ≡ self.old.faults) }
        ensures failed { OnErr result (Rose self.old.faults self.new.faults) }
        ensures never_falls { self.old.faults ≤ self.new.faults }
        ensures address { self.new.peer ≡ self.old.peer }
    {
        self.patience = Patience::new();
        self.quiet = self.quiet.saturating_add(1);
        if self.spared > 0 {
            self.spared -= 1;
            return Ok(None);
        }
        let looked = self.receive(out, false);
        if !is_none(&looked) {
            self.quiet = 0;
        } else if !self.waits {
            self.spared = spared_behind(self.quiet);
        }
        looked
    }

    /// Counts a call that failed. The first one is kept.
    fn fail(&mut self, call: Call, error: io::Error) -> Failed
        ensures failed { Rose self.old.faults self.new.faults }
        ensures never_falls { self.old.faults ≤ self.new.faults }
        ensures address { self.new.peer ≡ self.old.peer }
    {
        if self.fault.is_none() {
            self.fault = Some(CallFault::new(call, error));
        }
        self.faults = self.faults.saturating_add(1);
        Failed
    }

    /// The last commands that were handed to `send` for a camera's control port, to read or write there.
    pub(crate) fn commands(&self) -> Option<SentCommands> {
        self.commands
    }

    /// Keeps a command that goes to a camera's control port.
    fn keep_command(&mut self, bytes: &[u8])
        ensures faults { self.new.faults ≡ self.old.faults }
        ensures address { self.new.peer ≡ self.old.peer }
    {
        if let Some(command) = SentCommand::read(bytes) {
            let mut commands = self.commands.unwrap_or(SentCommands::new());
            commands.keep(command);
            self.commands = Some(commands);
        }
    }

    /// The first call that failed.
    pub fn fault(&self) -> Option<CallFault> {
        self.fault
    }

    /// How many calls failed.
    pub fn faults(&self) -> u64
        ensures { result ≡ self.now.faults }
    {
        self.faults
    }
}

impl Link for UdpLink {
    ghost received = { λ _. None };

    ghost sent = { λ _. None };

    ghost faults = { λ l. l.faults };

    ghost address = { λ l. l.peer };

    fn send(&mut self, peer: Peer, bytes: &[u8]) -> Result<(), Failed> {
        self.quiet = 0;
        self.spared = 0;
        if peer.port == CONTROL_PORT {
            self.keep_command(bytes);
        }
        match send_waiting(&self.socket, &mut self.patience, peer, bytes) {
            Ok(()) => {
                self.has_sent = true;
                Ok(())
            }
            Err(error) => {
                if self.has_sent {
                    return Ok(());
                }
                Err(self.fail(Call::Send, error))
            }
        }
    }

    fn recv(&mut self, out: &mut [u8]) -> Result<Option<(usize, Peer)>, Failed> {
        self.receive_sparing(out)
    }

    fn peer(&self) -> Peer {
        self.peer
    }
}

impl ShortLink for UdpLink {
    fn recv_front(&mut self, out: &mut [u8]) -> Result<Option<(usize, Peer)>, Failed> {
        self.receive_sparing(out)
    }
}

impl PeekLink for UdpLink {
    fn peek(&mut self, out: &mut [u8]) -> Result<Option<(usize, Peer)>, Failed> {
        self.patience = Patience::new();
        self.receive(out, true)
    }

    fn set_waiting(&mut self, waits: bool) {
        self.waits = waits;
        self.spared = 0;
    }
}

impl TimedLink for UdpLink {
    fn recv_within(
        &mut self,
        out: &mut [u8],
        millis: u32,
    ) -> Result<Option<(usize, Peer)>, Failed> {
        self.receive_within(out, millis)
    }
}
