// One attempt: a claim, at most one send, a record.
ghost use Rattle.std.specs.Prelude.{◌≡◌, ◌+◌, ◌<◌, ◌≤◌, ◌⊎◌, ◌↔◌, ℕ, List, [], ◌∷◌, ◌++◌, IsTrue, IfOk, MatchResult};
ghost use Rattle.json_text.specs.Moment.{IsMoment};
ghost use Rattle.router_disk.specs.Link.{Exchange};
ghost use Rattle.courier_run.specs.Claim.{IsTooOld, NeedsSend, IsSuccess, FitsClaim, moment_of};
ghost use Rattle.courier_run.specs.Act.{Act, book_acts_in};
ghost use Rattle.courier_run.specs.Link.{IsTried, Goes, outside};
ghost use Rattle.courier_run.specs.Steps.{IsAttempt};
ghost use Rattle.courier_run.specs.Book as spec;

use crate::{BookFault, DutyBook, HeldDuty, Stop, Way};
use delivery_duties::{Fate, Outcome};
use json_text::{LAST_MOMENT, NoMemory};
use router_disk::{Clock, Link, LinkFault};

/// How an attempt ended.
#[derive(Clone, Copy)]
pub(crate) enum Ended {
    /// It was recorded, and gave its duty this fate.
    Recorded(Fate),
    /// It was not recorded.
    Stopped(Stop),
}

/// Makes one attempt.
pub(crate) fn attempt<B: DutyBook, L: Link, C: Clock>(
    book: &mut B,
    link: &mut L,
    clock: &mut C,
) -> Ended
    requires sound { B.sound book.old }
    requires rests { B.rests book.old }
    ensures sound { B.sound book.new }
    ensures rests { B.rests book.new }
    ensures lender { B.lender book.new ≡ B.lender book.old }
    ensures made { (acts : List (Act B.Placed B.State)) × B.did book.old book.new (book_acts_in acts)
        × IsAttempt B.claims B.records B.puts_back B.breaks B.idle B.full B.broken acts result
        × Goes acts (outside (C.gave clock.old) (L.exchanges link.old) (L.faults link.old))
        (outside (C.gave clock.new) (L.exchanges link.new) (L.faults link.new)) }
{
    let moment = read_clock(clock);
    match book.claim(moment) {
        Ok(Some(held)) => match outcome_of(link, &held) {
            Ok(outcome) => match book.record_of(held, outcome, moment) {
                Ok(fate) => Ended::Recorded(fate),
                Err(fault) => Ended::Stopped(stop_of(fault)),
            },
            Err(NoMemory) => {
                book.put_back(held);
                Ended::Stopped(Stop::NoMemory)
            }
        },
        Ok(None) => Ended::Stopped(Stop::Idle),
        Err(fault) => Ended::Stopped(stop_of(fault)),
    }
}

/// What a fault of the book stops steps with.
fn stop_of(fault: BookFault) -> Stop
    ensures { result ≡ spec.stop_of fault }
{
    match fault {
        BookFault::NumberLimit => Stop::Full,
        BookFault::Broken => Stop::Broken,
        BookFault::NoMemory => Stop::NoMemory,
    }
}

/// The moment of the clock's next reading.
fn read_clock<C: Clock>(clock: &mut C) -> u64
    ensures moment { IsMoment result }
    ensures reading { (reading : ℕ) × (result ≡ moment_of reading) × (C.gave clock.new ≡ C.gave clock.old ++ reading ∷ []) }
{
    clock.now().min(LAST_MOMENT)
}

/// The outcome of a claim. Sends the text if the duty is not too old and its endpoint is no queue. An `Err` has sent
/// nothing.
fn outcome_of<H: HeldDuty, L: Link>(link: &mut L, held: &H) -> Result<Outcome, NoMemory>
    ensures fits { IfOk result (λ outcome. FitsClaim (H.shows held.now) outcome) }
    ensures tried { MatchResult result
        (λ outcome. (answers : List Exchange) × (L.exchanges link.new ≡ L.exchanges link.old ++ answers)
        × IsTried (H.shows held.now) (L.faults link.old) outcome answers (L.faults link.new))
        (λ _. NeedsSend (H.shows held.now) × (L.exchanges link.new ≡ L.exchanges link.old)
        × (L.faults link.new ≡ L.faults link.old)) }
{
    if is_too_old(held) {
        Ok(Outcome::TooOld)
    } else {
        match held.way() {
            Way::Queue => Ok(Outcome::Accepted),
            Way::Http => send(link, held),
        }
    }
}

/// Whether the duty is above its age at the claim's moment.
fn is_too_old<H: HeldDuty>(held: &H) -> bool
    ensures { IsTrue result ↔ IsTooOld (H.shows held.now) }
{
    held.moment().saturating_sub(held.accepted()) > u64::from(held.age())
}

/// Sends the text to the endpoint, once.
fn send<H: HeldDuty, L: Link>(link: &mut L, held: &H) -> Result<Outcome, NoMemory>
    requires { NeedsSend (H.shows held.now) }
    ensures fits { IfOk result (λ outcome. FitsClaim (H.shows held.now) outcome) }
    ensures tried { MatchResult result
        (λ outcome. (answers : List Exchange) × (L.exchanges link.new ≡ L.exchanges link.old ++ answers)
        × IsTried (H.shows held.now) (L.faults link.old) outcome answers (L.faults link.new))
        (λ _. NeedsSend (H.shows held.now) × (L.exchanges link.new ≡ L.exchanges link.old)
        × (L.faults link.new ≡ L.faults link.old)) }
{
    match link.send(held.endpoint(), held.text()) {
        Ok(code) => {
            if is_success(code) {
                Ok(Outcome::Accepted)
            } else {
                Ok(Outcome::Code(code))
            }
        }
        Err(LinkFault::Failed) => Ok(Outcome::NoAnswer),
        Err(LinkFault::NoMemory) => Err(NoMemory),
    }
}

/// Whether a status code accepts a text.
fn is_success(code: u16) -> bool
    ensures { IsTrue result ↔ IsSuccess code }
{
    200 <= code && code <= 299
}
