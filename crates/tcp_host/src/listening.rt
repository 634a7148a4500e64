// A listening socket of this machine, and the wait for its clients.
ghost use Rattle.std.specs.Prelude.{◌≡◌, ◌⊎◌, ◌↔◌, Some, IsTrue};

use bus_host::HostFault;
use libc::net::listen as set_queue;
use libc::{EBADF, EINVAL, ENOTSOCK};
use mio::unix::SourceFd;
use mio::{Events, Interest, Poll, Token};
use std::alloc::Global;
use std::io;
use std::io::ErrorKind;
use std::net::{IpAddr, Ipv4Addr, Net, SocketAddr, TcpListener, TcpStream};
use std::os::fd::AsRawFd;
use std::time::{Clock, Duration};

/// How many milliseconds a call waits for a client.
const PAUSE: u64 = 5;

/// How many clients may wait in the system's queue.
const QUEUE: i32 = 4_096;

/// The name of the listening socket in events.
const LISTENER: Token = Token(0);

/// What a look for a client finds.
pub(crate) enum Arrival {
    Client(TcpStream),
    /// No client waits.
    Nobody,
    /// The system failed in a way that may pass.
    Lost,
    /// The listening socket is of no use.
    Broken,
}

/// A listening socket. At most 4,096 clients wait for it in the system's queue, and no more than the system allows.
#[derive(Drop)]
pub(crate) struct Listening {
    pub(crate) listener: TcpListener,
    poll: Poll,
    events: Events,
}

impl Listening {
    /// Listens at 127.0.0.1. A line on standard error has the reason if it cannot.
    pub(crate) fn open<N: Net<Stream = TcpStream, Listener = TcpListener> + Eprint>(
        alloc: Global,
        system: &N,
        port: u16,
    ) -> Result<Listening, HostFault> {
        let Ok(events) = Events::with_capacity(alloc, 1) else {
            return Err(HostFault::NoMemory);
        };
        match listen(system, port) {
            Ok((listener, poll)) => Ok(Listening {
                listener,
                poll,
                events,
            }),
            Err((call, reason)) => {
                let _ = eprintln!(system; "ebusd: port {port}: {call}: {reason}");
                Err(HostFault::Failed)
            }
        }
    }

    /// A client that waits, or that comes within 5 ms. A failed call of the system waits as long.
    pub(crate) fn arrival(&mut self, clock: &impl Clock) -> Arrival {
        match self.accept() {
            Arrival::Nobody => {
                if self.wait(clock) {
                    self.accept()
                } else {
                    Arrival::Nobody
                }
            }
            Arrival::Lost => {
                pause(clock);
                Arrival::Lost
            }
            found => found,
        }
    }

    /// Waits for a client, at most 5 ms. Returns whether one may have come.
    pub(crate) fn wait(&mut self, clock: &impl Clock) -> bool {
        let most = Duration::from_millis(PAUSE);
        if self.poll.poll(&mut self.events, Some(most)).is_err() {
            pause(clock);
            return true;
        }
        !self.events.is_empty()
    }

    /// A client that waits.
    pub(crate) fn accept(&self) -> Arrival {
        match self.listener.accept() {
            Ok((stream, _)) => Arrival::Client(stream),
            Err(fault) => {
                if is_broken(fault.raw_os_error()) {
                    Arrival::Broken
                } else if fault.kind() == ErrorKind::WouldBlock {
                    Arrival::Nobody
                } else {
                    Arrival::Lost
                }
            }
        }
    }
}

/// A socket that listens, or the call of the system that failed and its reason.
fn listen<N: Net<Stream = TcpStream, Listener = TcpListener>>(
    system: &N,
    port: u16,
) -> Result<(TcpListener, Poll), (&'static str, io::Error)> {
    let address = SocketAddr::new(IpAddr::V4(Ipv4Addr::LOCALHOST), port);
    let listener = match system.bind(address) {
        Ok(listener) => listener,
        Err(reason) => return Err(("bind", reason)),
    };
    match watched(system, &listener) {
        Ok(poll) => Ok((listener, poll)),
        Err(reason) => Err(("listen", reason)),
    }
}

/// What wakes the wait for clients of the socket.
fn watched<N: Net<Stream = TcpStream, Listener = TcpListener>>(
    system: &N,
    listener: &TcpListener,
) -> io::Result<Poll> {
    listener.set_nonblocking(true)?;
    let poll = Poll::new(system)?;
    let fd = listener.as_raw_fd();
    // The socket listens already; a second call changes the length of its queue, and one that fails changes nothing.
    set_queue(fd, QUEUE);
    poll.registry()
        .register(&mut SourceFd(&fd), LISTENER, Interest::READABLE)?;
    Ok(poll)
}

/// Waits 5 ms.
pub(crate) fn pause(clock: &impl Clock) {
    clock.sleep(Duration::from_millis(PAUSE));
}

/// Whether an error of accept(2) is the listening socket's own, so that later calls fail too.
fn is_broken(code: Option<i32>) -> bool
    ensures { IsTrue result ↔ ((code ≡ Some EBADF) ⊎ (code ≡ Some EINVAL) ⊎ (code ≡ Some ENOTSOCK)) }
{
    code == Some(EBADF) || code == Some(EINVAL) || code == Some(ENOTSOCK)
}
