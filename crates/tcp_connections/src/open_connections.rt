// The connections of a door that are out, in the order in which they may be ended for a client that waits.
ghost use Rattle.std.specs.Prelude.{◌≡◌, ◌∷◌, [], ℕ, List, MatchOption};
ghost use Rattle.key_tree.specs.Entries.{AreSorted};

use crate::connection::Connection;
use crate::ending::Waited;
use crate::times::since;
use key_tree::{KeyTree, Node};
use std::alloc::{AllocError, Global};
use std::sync::Arc;
use std::sync::atomic::{AtomicU64, Ordering};
use std::time::Duration;

/// How many connections one call looks at, so that no call walks over all of them.
const LOOKS: u32 = 64;

/// How many nanoseconds are between two connections that are ended for others: at most 1,000 are ended a second.
const PACE: u64 = 1_000_000;

/// How many may be ended at once, if fewer were ended before: as many as clients that wait are accepted.
const AT_ONCE: u64 = 8;

/// By how many nanoseconds the 5 s of a message are longer than the 0.25 s in which a busy connection is looked at again.
const AGAIN: u64 = 4_750_000_000;

/// The connections that are out: their door gave them, and they have not come back. Each is in two trees. Its key in a tree is a
/// time before which it has not waited: since then it may be idle between messages, or may have waited for the rest of a
/// message. So the first of a tree whose key is the time since which it does wait has waited longest.
#[derive(Drop)]
pub struct OpenConnections {
    idle: KeyTree<Arc<Connection>>,
    messages: KeyTree<Arc<Connection>>,
    /// How many of those that are out were ended for clients that wait.
    leaving: usize,
    /// When the last of them was ended, as the pace counts it: 1 ms after the one before it, but no earlier than 7 ms before
    /// it was ended.
    paced: u64,
}

/// One of the two trees.
#[derive(Clone, Copy)]
enum Wait {
    Idle,
    Message,
}

impl OpenConnections {
    /// None is out.
    pub fn new() -> OpenConnections {
        OpenConnections {
            idle: KeyTree::new(),
            messages: KeyTree::new(),
            leaving: 0,
            paced: 0,
        }
    }

    /// Adds a connection that begins. After an error it is not among those that are out.
    pub fn add(&mut self, alloc: Global, connection: &Arc<Connection>) -> Result<(), AllocError> {
        let idle = node(alloc, connection)?;
        let message = node(alloc, connection)?;
        put(&mut self.idle, key_of(connection, Wait::Idle), idle);
        put(
            &mut self.messages,
            key_of(connection, Wait::Message),
            message,
        );
        Ok(())
    }

    /// Removes a connection that has come back. It is no longer counted if it was ended for a client that waits.
    pub fn take_back(&mut self, connection: &Connection) {
        if connection.is_ended() {
            self.leaving = self.leaving.saturating_sub(1);
        }
        self.remove(connection);
    }

    fn remove(&mut self, connection: &Connection) {
        self.idle.remove(key_of(connection, Wait::Idle));
        self.messages.remove(key_of(connection, Wait::Message));
    }

    /// Ends a connection for each of `waiting` clients, but for those for which one that was ended is still out. It ends at most
    /// 8 at once and 1,000 a second, and only those that are over while another client waits. `now` is in nanoseconds since the
    /// door was opened.
    pub fn end_for(&mut self, waiting: usize, now: u64) {
        for _ in 0..AT_ONCE {
            if self.leaving >= waiting
                || now < self.paced.saturating_add(PACE)
                || !self.end_one(now)
            {
                return;
            }
            self.leaving = self.leaving.saturating_add(1);
            let earliest = now.saturating_sub(AT_ONCE * PACE);
            self.paced = self.paced.max(earliest).saturating_add(PACE);
        }
    }

    /// Ends the connection that is idle longest, if it is over while another client waits; else the one whose message began
    /// first, if that is. Returns whether it ended one. It may find none if more than 64 were active since it looked at them.
    fn end_one(&mut self, now: u64) -> bool {
        let found = match over(&mut self.idle, Wait::Idle, now) {
            Some(connection) => Some(connection),
            None => over(&mut self.messages, Wait::Message, now),
        };
        match found {
            Some(connection) => {
                self.remove(&connection);
                connection.end_receiving();
                true
            }
            None => false,
        }
    }
}

impl Wait {
    /// The time since which the connection waits so, if it does.
    fn since(self, connection: &Connection) -> Option<u64> {
        match self {
            Wait::Idle => connection.idle_since(),
            Wait::Message => connection.message_since(),
        }
    }

    /// The time by which the connection is in this tree.
    fn place(self, connection: &Connection) -> &AtomicU64 {
        match self {
            Wait::Idle => &connection.idle_place,
            Wait::Message => &connection.message_place,
        }
    }

    /// The key by which a connection that does not wait so now is looked at again in 0.25 s: it may be busy with bytes of a
    /// message that began before.
    fn again(self, now: u64) -> u64 {
        match self {
            Wait::Idle => now,
            Wait::Message => now.saturating_sub(AGAIN),
        }
    }

    /// Whether a connection that has waited so for this time is over while another client waits.
    fn is_over(self, time: Duration) -> bool {
        let waited = match self {
            Wait::Idle => Waited {
                idle: time,
                message: None,
            },
            Wait::Message => Waited {
                idle: Duration::ZERO,
                message: Some(time),
            },
        };
        waited.is_over(true)
    }
}

/// The first connection of a tree, if it has waited since its key, and is over while another client waits. Those before it that
/// have waited for less get new keys.
fn over(tree: &mut KeyTree<Arc<Connection>>, wait: Wait, now: u64) -> Option<Arc<Connection>> {
    for _ in 0..LOOKS {
        let connection = Arc::try_clone(oldest(tree)?).ok()?;
        let place = wait.place(&connection).load(Ordering::SeqCst);
        if !wait.is_over(since(place, now)) {
            return None;
        }
        match wait.since(&connection) {
            Some(time) if time <= place => return Some(connection),
            Some(time) => move_to(tree, &connection, wait, time.min(now)),
            None => move_to(tree, &connection, wait, wait.again(now)),
        }
    }
    None
}

/// The value with the least key.
fn oldest<V: Drop>(tree: &KeyTree<V>) -> Option<&V>
    ensures first { MatchOption result (tree.now ≡ []) (λ value. (key : ℕ) × (rest : List (ℕ × V)) × (tree.now ≡ (key, value.now) ∷ rest)) }
    ensures sorted { AreSorted tree.now }
{
    match tree.first() {
        Some((_, value)) => Some(value),
        None => None,
    }
}

/// Gives a connection another key.
fn move_to(tree: &mut KeyTree<Arc<Connection>>, connection: &Connection, wait: Wait, time: u64) {
    if let Some(node) = tree.remove(key_of(connection, wait)) {
        wait.place(connection).store(time, Ordering::SeqCst);
        put(tree, key_of(connection, wait), node);
    }
}

fn put(tree: &mut KeyTree<Arc<Connection>>, key: u128, node: Node<Arc<Connection>>) {
    if tree.get(key).is_none() {
        tree.insert(key, node);
    }
}

/// The key of a connection: its time, and then its number.
fn key_of(connection: &Connection, wait: Wait) -> u128 {
    let time = wait.place(connection).load(Ordering::SeqCst);
    u128::from(time) * (1 << 64) + u128::from(connection.number())
}

fn node(alloc: Global, connection: &Arc<Connection>) -> Result<Node<Arc<Connection>>, AllocError> {
    match Node::new(alloc, Arc::try_clone(connection)?) {
        Ok(node) => Ok(node),
        Err(_) => Err(AllocError),
    }
}
