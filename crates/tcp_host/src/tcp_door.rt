// A listener over TCP, the adapter for the clients of this machine. What the system does is trusted.
ghost use Rattle.std.specs.Prelude.{◌≡◌, ◌+◌, ◌-◌, ◌<◌, false, [], ◌∷◌, ◌++◌, map, Ok, Some, IfOk};
ghost use Rattle.bus_host.specs.Doors.{Lengthened, closed_after, given_by};
ghost use Rattle.bus_host.specs.Knock.{knock_outcome};
ghost use Rattle.tcp_host.specs.Places.{fresh, limit_for, out_after};

use crate::alone::Alone;
use crate::listening::{Arrival, Listening, pause};
use crate::tcp_source::nanos_between;
use crate::waiting::Waiting;
use crate::{TcpSink, TcpSource};
use bus_host::{Door, Ended, HostFault, Knock, raise};
use http_server::Log;
use journal_disk::FaultFlag;
use std::alloc::{AllocError, Global};
use std::marker::Model;
use std::net::{Net, TcpListener, TcpStream};
use std::sync::Arc;
use std::time::{Clock, Instant};
use tcp_connections::{Closing, Connection, OpenConnections};

/// A door at a port of 127.0.0.1. `next` waits at most 5 ms. Only EBADF, EINVAL and ENOTSOCK of accept(2) are its fault.
/// If all connections that there may be are out, `next` ends one of them for each client that waits (`OpenConnections::end_for`), by
/// ending its receiving side: its session finds the end of its input, and what it writes still goes to its client.
/// `done` ends the sending side; each `next` then drops what such clients still send, at most 256 KiB of each of 24
/// connections, and closes them at the client's end or after 1 s, so that a client refused while it sends gets its reply as
/// long as `next` is called. If both sides were ended here, the system answers what the client still sends by a reset.
#[derive(Drop)]
pub struct TcpDoor<N> {
    alloc: Global,
    system: N,
    pub(crate) listening: Listening,
    /// When it was opened.
    start: Instant,
    limit: usize,
    out: usize,
    /// How many connections were begun.
    begun: u64,
    alone: Arc<Alone>,
    flag: FaultFlag,
    open: OpenConnections,
    waiting: Waiting,
    closing: Closing,
    given: Log<TcpSource<N>, TcpSink<N>>,
    ended: Log<Ended<TcpSource<N>, TcpSink<N>>, ()>,
    faults: u64,
}

impl<N> Model for TcpDoor<N> {
    ghost use Rattle.std.specs.Prelude.{◌≤◌, map};
    ghost use Rattle.tcp_host.specs.Places.{Places};
    ghost use Rattle.tcp_host.specs.declared.tcp_sink.TcpSink.{TcpSink};
    ghost use Rattle.tcp_host.specs.declared.tcp_source.TcpSource.{TcpSource};

    ghost Value = { Places (TcpSource N) (TcpSink N) };

    ghost view = { λ d. record {
      limit = d.limit;
      out = d.out;
      given = d.given.items;
      ended = map (λ pair. pair.0) d.ended.items;
      faults = d.faults;
    } };

    ghost invariant = { λ d. d.out ≤ d.limit };
}

impl<N: Net<Stream = TcpStream, Listener = TcpListener> + Eprint + Clock + Copy> TcpDoor<N> {
    /// Listens at `port` for a program with so many workers, that is, links. It gives out one connection fewer at once,
    /// so that a worker stays free, and one if there is only one worker; then each idle connection ends after 0.25 s.
    /// If a call of a disk with this flag fails, its connections end between messages. A line on standard error has the reason
    /// if it cannot listen.
    pub fn open(
        alloc: Global,
        system: N,
        port: u16,
        workers: usize,
        flag: FaultFlag,
    ) -> Result<Self, HostFault>
        ensures opened { IfOk result (λ door. door ≡ fresh (limit_for workers)) }
    {
        let Ok(alone) = Arc::new(alloc, Alone::new(workers <= 1)) else {
            return Err(HostFault::NoMemory);
        };
        let Ok(waiting) = Waiting::new(alloc) else {
            return Err(HostFault::NoMemory);
        };
        let Ok(closing) = Closing::new(alloc) else {
            return Err(HostFault::NoMemory);
        };
        let Ok(start) = Instant::now(&system) else {
            return Err(HostFault::Failed);
        };
        let listening = Listening::open(alloc, &system, port)?;
        Ok(TcpDoor {
            alloc,
            system,
            listening,
            start,
            limit: workers.saturating_sub(1).max(1),
            out: 0,
            begun: 0,
            alone,
            flag,
            open: OpenConnections::new(),
            waiting,
            closing,
            given: Log::new(),
            ended: Log::new(),
            faults: 0,
        })
    }
}

impl<N: Net<Stream = TcpStream, Listener = TcpListener> + Clock + Copy> TcpDoor<N> {
    /// Stops listening, and waits at most 1 s for the connections that wait for their client's end.
    pub fn close(self) {
        let TcpDoor {
            system,
            listening,
            mut closing,
            ..
        } = self;
        drop(listening);
        for _ in 0..u64::MAX {
            closing.drop_arrived(&system);
            if closing.is_empty() {
                return;
            }
            pause(&system);
        }
    }

    /// Accepts clients that wait, as many as there is room for, and ends connections for them. If no client waits, it waits
    /// 5 ms for one.
    fn refuse(&mut self)
        ensures { self.new ≡ self.old }
    {
        self.waiting.fill(&self.listening);
        if self.waiting.count() == 0 {
            self.listening.wait(&self.system);
            return;
        }
        if let Ok(now) = Instant::now(&self.system) {
            self.open
                .end_for(self.waiting.count(), nanos_between(self.start, now));
        }
    }

    /// The client that has waited for a place longest, or one that comes.
    fn arrival(&mut self) -> Arrival
        ensures { self.new ≡ self.old }
    {
        match self.waiting.take() {
            Some(stream) => Arrival::Client(stream),
            None => self.listening.arrival(&self.system),
        }
    }

    /// Gives a client its connection. Its socket is closed if the system or the memory fails.
    fn admit(&mut self, stream: TcpStream) -> Knock<TcpSource<N>, TcpSink<N>>
        requires { self.old.out < self.old.limit }
        ensures outcome { knock_outcome result ≡ Ok tt }
        ensures open { false ≡ closed_after false result }
        ensures out { self.new ≡ record self.old { out = out_after self.old.out result; given = self.old.given ++ given_by result } }
    {
        let Ok(now) = Instant::now(&self.system) else {
            return Knock::Quiet;
        };
        let now = nanos_between(self.start, now);
        match self.connection(stream, now) {
            Ok(connection) => self.give(connection, now),
            Err(HostFault::Failed) => Knock::Quiet,
            Err(HostFault::NoMemory) => Knock::NoMemory,
        }
    }

    /// A connection that begins now. It is among those that are out.
    fn connection(&mut self, stream: TcpStream, now: u64) -> Result<Arc<Connection>, HostFault>
        ensures { self.new ≡ self.old }
    {
        let number = self.begun;
        self.begun = number.saturating_add(1);
        let Ok(connection) = Connection::new(stream, number, now) else {
            return Err(HostFault::Failed);
        };
        let Ok(connection) = Arc::new(self.alloc, connection) else {
            return Err(HostFault::NoMemory);
        };
        match self.open.add(self.alloc, &connection) {
            Ok(()) => Ok(connection),
            Err(AllocError) => Err(HostFault::NoMemory),
        }
    }

    /// Gives a connection.
    fn give(&mut self, connection: Arc<Connection>, now: u64) -> Knock<TcpSource<N>, TcpSink<N>>
        requires { self.old.out < self.old.limit }
        ensures outcome { knock_outcome result ≡ Ok tt }
        ensures open { false ≡ closed_after false result }
        ensures out { self.new ≡ record self.old { out = out_after self.old.out result; given = self.old.given ++ given_by result } }
    {
        match self.halves(connection, now) {
            Ok((input, output)) => {
                self.out += 1;
                self.given = self.given.and(&input, &output);
                Knock::Conn(input, output)
            }
            Err(AllocError) => Knock::NoMemory,
        }
    }

    /// Fails only if the count of an `Arc` is full.
    fn halves(
        &self,
        connection: Arc<Connection>,
        now: u64,
    ) -> Result<(TcpSource<N>, TcpSink<N>), AllocError> {
        let alone = Arc::try_clone(&self.alone)?;
        let input = TcpSource::new(
            Arc::try_clone(&connection)?,
            alone,
            self.flag.try_clone()?,
            self.system,
            self.start,
            now,
        );
        Ok((input, TcpSink::new(connection, self.system)))
    }
}

impl<N: Net<Stream = TcpStream, Listener = TcpListener> + Clock + Copy + Send> Door for TcpDoor<N> {
    ghost use Rattle.std.specs.Prelude.{None, Some, false};
    ghost use Rattle.router_disk.specs.Faults.{CountsFaults};

    type In = TcpSource<N>;

    type Out = TcpSink<N>;

    ghost ahead = { λ d. None };

    ghost given = { λ d. Some d.given };

    ghost ended = { λ d. Some d.ended };

    ghost gave = { λ d. d.given };

    ghost took_back = { λ d. d.ended };

    ghost closed = { λ d. false };

    ghost faults = { λ d. d.faults };

    fn faults(&self) -> u64 {
        self.faults
    }

    fn next(&mut self) -> Knock<TcpSource<N>, TcpSink<N>>
        ensures count { CountsFaults self.old.faults self.new.faults (knock_outcome result) }
        ensures out { self.new.out ≡ out_after self.old.out result }
        ensures limit { self.new.limit ≡ self.old.limit }
        ensures given { Lengthened (Some self.old.given) (Some self.new.given) (given_by result) }
        ensures ended { self.new.ended ≡ self.old.ended }
        ensures gave { self.new.given ≡ self.old.given ++ given_by result }
        ensures took_back { self.new.ended ≡ self.old.ended }
        ensures over { false ≡ closed_after false result }
    {
        if self.faults == u64::MAX {
            return Knock::Failed;
        }
        self.closing.drop_arrived(&self.system);
        if self.out >= self.limit {
            self.refuse();
            return Knock::Quiet;
        }
        match self.arrival() {
            Arrival::Client(stream) => self.admit(stream),
            Arrival::Nobody | Arrival::Lost => Knock::Quiet,
            Arrival::Broken => {
                raise(&mut self.faults);
                Knock::Failed
            }
        }
    }

    fn done(&mut self, input: TcpSource<N>, output: TcpSink<N>, cut: bool)
        ensures faults { self.new.faults ≡ self.old.faults }
        ensures out { self.new.out ≡ self.old.out - 1 }
        ensures limit { self.new.limit ≡ self.old.limit }
        ensures given { self.new.given ≡ self.old.given }
        ensures ended { Lengthened (Some self.old.ended) (Some self.new.ended) (record { input = input; output = output; cut = cut } ∷ []) }
        ensures took_back { self.new.ended ≡ self.old.ended ++ record { input = input; output = output; cut = cut } ∷ [] }
    {
        self.out = self.out.saturating_sub(1);
        let ended = Ended { input, output, cut };
        self.ended = self.ended.and(&ended, &());
        let Ended { input, .. } = ended;
        let TcpSource { connection, .. } = input;
        self.open.take_back(&connection);
        self.closing.add(connection, &self.system);
    }
}
