// A link in memory.
ghost use Rattle.std.specs.Prelude.{◌≡◌, ◌++◌, ◌≤◌, ℕ, suc, [], ◌∷◌, map, Err, OnOk, OnErr};
ghost use Rattle.router_disk.specs.Link.{plan_of, exchange_of, exchanges_in};

use crate::fault::fail;
use crate::{Failed, Link, LinkFault};
use std::alloc::{AllocError, AllocFailed, Global};

/// An exchange that had an answer.
#[derive(Debug, Drop)]
pub struct Answer {
    pub endpoint: String,
    pub text: String,
    pub code: u16,
}

/// A link that gives the results that it plans, in order, and then its last one forever. It
/// remembers each exchange that had an answer, so a send may run out of memory before its planned
/// result is given.
#[derive(Drop)]
pub struct MemLink {
    /// The result of the next send.
    pub planned: Result<u16, LinkFault>,
    /// The results of the sends after it.
    pub later: Vec<Result<u16, LinkFault>>,
    pub answers: Vec<Answer>,
    pub faults: u64,
}

impl From<AllocError> for LinkFault {
    ghost use Rattle.std.specs.Prelude.{◌≡◌};
    ghost use Rattle.router_disk.specs.declared.link.LinkFault.TheVariants.{NoMemory};

    ghost from_gives = { λ _ e. e ≡ NoMemory };

    fn from(_refused: AllocError) -> LinkFault {
        LinkFault::NoMemory
    }
}

impl<T: Drop> From<AllocFailed<T>> for LinkFault {
    ghost use Rattle.std.specs.Prelude.{◌≡◌};
    ghost use Rattle.router_disk.specs.declared.link.LinkFault.TheVariants.{NoMemory};

    ghost from_gives = { λ _ e. e ≡ NoMemory };

    fn from(_refused: AllocFailed<T>) -> LinkFault {
        LinkFault::NoMemory
    }
}

impl MemLink {
    /// A link with no exchange and no fault yet, that plans `first` and then the results of
    /// `later`.
    pub fn new(
        alloc: Global,
        first: Result<u16, LinkFault>,
        later: Vec<Result<u16, LinkFault>>,
    ) -> Self
        ensures plan { (result.planned ≡ first) × (result.later ≡ later) }
        ensures answers { exchanges_in result ≡ [] }
        ensures faults { result.faults ≡ 0 }
    {
        MemLink {
            planned: first,
            later,
            answers: Vec::new(alloc),
            faults: 0,
        }
    }

    /// A link whose every send has the same result. It takes no memory.
    pub fn always(alloc: Global, planned: Result<u16, LinkFault>) -> Self
        ensures plan { (k : ℕ) → plan_of result k ≡ planned }
        ensures answers { exchanges_in result ≡ [] }
        ensures faults { result.faults ≡ 0 }
    {
        MemLink::new(alloc, planned, Vec::new(alloc))
    }

    // Plans the result after the next one.
    fn move_on(&mut self)
        ensures plan { (k : ℕ) → plan_of self.new k ≡ plan_of self.old (suc k) }
        ensures answers { self.new.answers ≡ self.old.answers }
        ensures faults { self.new.faults ≡ self.old.faults }
    {
        if !self.later.is_empty() {
            self.planned = self.later.remove(0);
        }
    }
}

// Adds an exchange.
fn remember(answers: &mut Vec<Answer>, to: &str, body: &str, code: u16) -> Result<(), LinkFault>
    ensures ok { OnOk result (map exchange_of answers.new.items
        ≡ map exchange_of answers.old.items
        ++ record { endpoint = to.now; text = body.now; code = code } ∷ []) }
    ensures err { OnErr result (answers.new.items ≡ answers.old.items) }
    ensures cause { OnErr result (result ≡ Err LinkFault.NoMemory) }
{
    let alloc = *answers.allocator();
    let endpoint = String::from_str(alloc, to)?;
    let text = String::from_str(alloc, body)?;
    answers.push(Answer {
        endpoint,
        text,
        code,
    })?;
    Ok(())
}

impl Link for MemLink {
    ghost use Rattle.std.specs.Prelude.{Some};
    ghost use Rattle.router_disk.specs.Faults.{CountsFaults, link_outcome};
    ghost use Rattle.router_disk.specs.Link.{Answered, exchanges_of, KeepsToPlan};

    ghost answered = { λ l. Some (exchanges_in l) };

    ghost exchanges = { λ l. exchanges_in l };

    ghost faults = { λ l. l.faults };

    fn faults(&self) -> u64 {
        self.faults
    }

    fn send(&mut self, to: &str, body: &str) -> Result<u16, LinkFault>
        ensures answers { Answered (Some (exchanges_in self.old)) (Some (exchanges_in self.new))
            (exchanges_of result to.now body.now) }
        ensures exchanges { exchanges_in self.new ≡ exchanges_in self.old ++ exchanges_of result to.now body.now }
        ensures count { CountsFaults self.old.faults self.new.faults (link_outcome result) }

        ensures plan { KeepsToPlan self.old self.new result }
    {
        if self.faults == u64::MAX {
            return Err(LinkFault::Failed);
        }
        match self.planned {
            Ok(code) => {
                remember(&mut self.answers, to, body, code)?;
                self.move_on();
                Ok(code)
            }
            Err(LinkFault::Failed) => {
                self.move_on();
                match fail(&mut self.faults) {
                    Ok(code) => Ok(code),
                    Err(Failed) => Err(LinkFault::Failed),
                }
            }
            Err(LinkFault::NoMemory) => {
                self.move_on();
                Err(LinkFault::NoMemory)
            }
        }
    }
}
