// A link over TCP, the adapter for the endpoints of this machine. What the system does is trusted.
use crate::exchanged::Exchanged;
use crate::heads::Heads;
use bus_host::raise;
use http_server::Log;
use http_target::{Endpoint, Reply};
use router_disk::{Link, LinkFault};
use std::alloc::Global;
use std::io;
use std::io::{ErrorKind, Write};
use std::net::{IpAddr, Ipv4Addr, Ipv6Addr, Net, OpenStream, SocketAddr};
use std::time::{Clock, Duration, Instant};
use tcp_connections::is_waiting;

/// How many seconds a send may take, from connecting to the whole head of the reply.
const LIMIT: u64 = 5;

/// How many milliseconds a write waits for room before the link looks for a reply.
const PAUSE: u64 = 50;

/// A link to the endpoints of this machine, with a connection for each send. It connects to
/// 127.0.0.1, whatever the text of the endpoint says, and for `localhost` to ::1 if that refuses. A
/// send takes at most 5 seconds by the monotonic clock. What is no endpoint fails before the link
/// connects. All memory is taken before that. The body of a reply is not read.
#[derive(Drop)]
pub struct HttpLink<N> {
    alloc: Global,
    system: N,
    exchanges: Log<Exchanged, ()>,
    faults: u64,
}

impl<N: Net + Clock> HttpLink<N> {
    ghost use Rattle.std.specs.Prelude.{◌≡◌, [], map};

    /// A link over the system's sockets and its monotonic clock. It has made no exchange.
    pub fn new(alloc: Global, system: N) -> Self
        ensures { map (λ pair. pair.0) result.exchanges.items ≡ [] }
    {
        HttpLink {
            alloc,
            system,
            exchanges: Log::new(),
            faults: 0,
        }
    }

    /// The status code of the reply. `None` if the exchange fails.
    fn exchange(&self, endpoint: &Endpoint, request: &[u8]) -> Option<u16> {
        let start = Instant::now(&self.system).ok()?;
        let mut stream = self.connect(endpoint, start).ok()?;
        stream.set_nodelay(true).ok()?;
        let mut heads = Heads::new();
        self.write(&mut stream, request, &mut heads, start);
        self.read(&mut stream, &mut heads, start);
        match heads.reply() {
            Reply::Whole(code) => Some(code),
            // The connection or the time ended after an interim reply.
            Reply::NotYet(last) => last,
            Reply::Never => None,
        }
    }

    fn connect(&self, endpoint: &Endpoint, start: Instant) -> io::Result<N::Stream> {
        let first = SocketAddr::new(IpAddr::V4(Ipv4Addr::LOCALHOST), endpoint.port());
        let second = SocketAddr::new(IpAddr::V6(Ipv6Addr::LOCALHOST), endpoint.port());
        match self.system.connect_timeout(first, self.left(start)) {
            Ok(stream) => Ok(stream),
            Err(fault) => {
                if endpoint.is_localhost() && fault.kind() == ErrorKind::ConnectionRefused {
                    self.system.connect_timeout(second, self.left(start))
                } else {
                    Err(fault)
                }
            }
        }
    }

    /// Writes the request, until a write fails, the time is over, or the reply is there before all
    /// is written.
    fn write(&self, stream: &mut N::Stream, request: &[u8], heads: &mut Heads, start: Instant) {
        let mut rest = request;
        for _ in 0..u64::MAX {
            let left = self.left(start);
            let wait = left.min(Duration::from_millis(PAUSE));
            if rest.is_empty() || left.is_zero() || stream.set_write_timeout(Some(wait)).is_err() {
                return;
            }
            match stream.write(rest) {
                Ok(0) => return,
                Ok(count) => rest = &rest[count..],
                Err(fault) => {
                    let is_waiting = is_waiting(fault.kind());
                    if !is_waiting || heads.is_settled_by(stream) {
                        return;
                    }
                }
            }
        }
    }

    /// Reads until the reply is decided, the connection ends, or the time is over and nothing more
    /// has arrived.
    fn read(&self, stream: &mut N::Stream, heads: &mut Heads, start: Instant) {
        for _ in 0..u64::MAX {
            if !heads.is_awaited() {
                return;
            }
            let left = self.left(start);
            if left.is_zero() {
                heads.take_arrived(stream);
                return;
            }
            if stream.set_read_timeout(Some(left)).is_err() {
                return;
            }
            match heads.read(stream) {
                Ok(0) => return,
                Ok(_) => (),
                Err(fault) => {
                    if !is_waiting(fault.kind()) {
                        return;
                    }
                }
            }
        }
    }

    /// How much of the time is left. None, if the clock fails.
    fn left(&self, start: Instant) -> Duration {
        match start.elapsed(&self.system) {
            Ok(spent) => Duration::from_secs(LIMIT).saturating_sub(spent),
            Err(_) => Duration::ZERO,
        }
    }
}

impl<N: Net + Clock + Send> Link for HttpLink<N> {
    ghost use Rattle.std.specs.Prelude.{◌≡◌, ◌++◌, None, IsErr, map};
    ghost use Rattle.router_disk.specs.Faults.{CountsFaults, link_outcome};
    ghost use Rattle.router_disk.specs.Link.{exchanges_of};
    ghost use Rattle.http_target.specs.Endpoint.{endpoint_of};

    ghost answered = { λ l. None };

    ghost exchanges = { λ l. map (λ pair. pair.0) l.exchanges.items };

    ghost faults = { λ l. l.faults };

    fn faults(&self) -> u64 {
        self.faults
    }

    fn send(&mut self, to: &str, body: &str) -> Result<u16, LinkFault>
        ensures exchanges { map (λ pair. pair.0) self.new.exchanges.items
            ≡ map (λ pair. pair.0) self.old.exchanges.items ++ exchanges_of result to.now body.now }
        ensures count { CountsFaults self.old.faults self.new.faults (link_outcome result) }
        ensures other { endpoint_of to.now ≡ None → IsErr result }
    {
        if self.faults == u64::MAX {
            return Err(LinkFault::Failed);
        }
        let endpoint = match Endpoint::read(self.alloc, to) {
            Ok(Some(endpoint)) => endpoint,
            Ok(None) => {
                raise(&mut self.faults);
                return Err(LinkFault::Failed);
            }
            Err(_) => return Err(LinkFault::NoMemory),
        };
        let request = match endpoint.request(self.alloc, body) {
            Ok(request) => request,
            Err(_) => return Err(LinkFault::NoMemory),
        };
        match self.exchange(&endpoint, request.as_slice()) {
            Some(code) => {
                self.exchanges = self.exchanges.and(&Exchanged::new(to, body, code), &());
                Ok(code)
            }
            None => {
                raise(&mut self.faults);
                Err(LinkFault::Failed)
            }
        }
    }
}
