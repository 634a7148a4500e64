//! Steps of delivery over a book, a link and a clock in memory. The rows are worked by hand.
ghost use Rattle.std.specs.Prelude.{◌≡◌, None};

use courier_run::{BookFault, DutyBook, HeldDuty, Stepped, Turned, Way, turn};
use delivery_duties::{Fate, Outcome};
use event_shape::queue_of;
use router_disk::{Clock, Link, LinkFault, MemClock, MemLink};
use std::alloc::Global;
use std::fmt::Write;
use std::process::Abort;
use test_rows::{four, two};

// A duty of the plain book, which may be claimed. It is accepted at 1000 and attempted up to an age of 60.
#[derive(Clone, Copy)]
struct PlainDuty {
    number: u64,
    endpoint: &'static str,
    moment: u64,
}

impl HeldDuty for PlainDuty {
    ghost use Rattle.std.specs.Prelude.{codes};

    ghost shows = { λ d. record {
      number = d.number;
      endpoint = d.endpoint.now;
      text = codes "{}";
      accepted = 1000;
      age = 60;
      reading = d.moment;
      moment = d.moment;
    } };

    fn way(&self) -> Way {
        match queue_of(self.endpoint) {
            Some(_) => Way::Queue,
            None => Way::Http,
        }
    }

    fn endpoint(&self) -> &str {
        self.endpoint
    }

    fn text(&self) -> &str {
        "{}"
    }

    fn accepted(&self) -> u64 {
        1000
    }

    fn age(&self) -> u32 {
        60
    }

    fn moment(&self) -> u64 {
        self.moment
    }
}

// What the plain book did.
#[derive(Clone, Copy)]
enum Did {
    // It was looked at, while this number of duties could be claimed, and this was special of it.
    Looked(usize, u8),
    Claimed(PlainDuty),
    Recorded(PlainDuty, Outcome, Fate),
    PutBack(PlainDuty),
    // The record was refused at the number limit, and the claim put back.
    Refused(PlainDuty),
    // The record of this outcome could not be kept, which broke the book.
    Broke(PlainDuty, Outcome),
    // The book was broken, and the claim put back.
    Unkept(PlainDuty),
}

// A book in memory. Each of its duties is due until it is claimed. What is special of it, by its first letter: if `full`, no duty can
// be claimed; if it `refuses`, no attempt can be recorded, at the number limit; if `no queues`, no queue exists; if it is `broken`, no duty
// can be claimed; if it `keeps none`, a record breaks it; if it `un-keeps`, it was broken before the record. It stops the test if it is out
// of memory.
#[derive(Drop)]
struct PlainBook<R: Abort> {
    rt: R,
    special: u8,
    duties: Vec<PlainDuty>,
    // The duty that is claimed.
    claimed: Option<PlainDuty>,
    log: Vec<Did>,
}

impl<R: Abort> PlainBook<R> {
    ghost use Rattle.std.specs.Prelude.{◌≡◌, ◌⊎◌, ◌++◌, ◌∷◌, [], vec_len};
    ghost use Rattle.courier_run.specs.Claim.{IsForQueue};

    fn note(&mut self, did: Did)
        ensures log { self.new.log.items ≡ self.old.log.items ++ did ∷ [] }
        ensures claimed { self.new.claimed ≡ self.old.claimed }
    {
        match self.log.push(did) {
            Ok(()) => (),
            Err(_) => panic!(self.rt; "out of memory"),
        }
    }

    // Notes a look.
    fn look(&mut self)
        ensures log { self.new.log.items ≡ self.old.log.items ++ Did.Looked (vec_len self.old.duties) self.old.special ∷ [] }
        ensures claimed { self.new.claimed ≡ self.old.claimed }
    {
        let (left, special) = (self.duties.len(), self.special);
        self.note(Did::Looked(left, special));
    }

    // Puts the claimed duty back at the front, and notes what did so.
    fn restore(&mut self, duty: PlainDuty, did: Did)
        ensures log { self.new.log.items ≡ self.old.log.items ++ did ∷ [] }
        ensures claimed { self.new.claimed ≡ None }
    {
        self.claimed = None;
        match self.duties.insert(0, duty) {
            Ok(()) => self.note(did),
            Err(_) => panic!(self.rt; "out of memory"),
        }
    }

    // The outcome in the record: a queue may be missing.
    fn recorded(&self, duty: &PlainDuty, outcome: Outcome) -> Outcome
        ensures { (result ≡ outcome)
            ⊎ (IsForQueue (⟦<PlainDuty as HeldDuty>⟧.shows duty.now) × (outcome ≡ Outcome.Accepted) × (result ≡ Outcome.NoQueue)) }
    {
        match (duty.way(), outcome) {
            (Way::Queue, Outcome::Accepted) if self.special == b'n' => Outcome::NoQueue,
            _ => outcome,
        }
    }
}

// The fate of an attempt with this outcome.
fn fate_of(outcome: Outcome) -> Fate {
    match outcome {
        Outcome::Accepted => Fate::Delivered,
        Outcome::NoAnswer => Fate::Pending,
        Outcome::Code(503) => Fate::Pending,
        Outcome::TooOld => Fate::Dropped,
        _ => Fate::DeadLettered,
    }
}

impl<R: Abort> DutyBook for PlainBook<R> {
    ghost use Rattle.std.specs.Prelude.{◌≡◌, ◌≢◌, ◌⊎◌, ◌++◌, ℕ, List, map, Some, None};
    ghost use Rattle.std.proofs.Common.{sym, ap, ◌∙◌, append_assoc, append-nil};
    ghost use Rattle.delivery_duties.specs.declared.outcome.Outcome.{Outcome};
    ghost use Rattle.courier_run.specs.Claim.{IsForQueue};
    ghost use Rattle.courier_run.specs.Act.{Act, looks, makes};
    ghost use Rattle.courier_run.specs.Steps.{unsent, limited, unkept};
    ghost use Rattle.outside_tests.specs.declared.test_courier_run.PlainDuty.{PlainDuty};
    ghost use Rattle.outside_tests.specs.declared.test_courier_run.Did.{Did};
    ghost use Rattle.outside_tests.specs.declared.test_courier_run.Did.TheVariants.{Looked, Claimed, Recorded, PutBack, Refused, Broke, Unkept};

    type Held = PlainDuty;

    ghost Placed = { Did };

    // How many duties can be claimed, and what is special of the book.
    ghost State = { ℕ × ℕ };

    ghost sound = { λ _. Unit {0} };

    ghost rests = { λ b. b.claimed ≡ None };

    ghost holds = { λ b c. (d : PlainDuty) × (b.claimed ≡ Some d) × (⟦<PlainDuty as HeldDuty>⟧.shows d ≡ c) };

    // The log has a look or a turn for each act.
    ghost did = { λ a b acts. map (λ d. elim d [
      | Looked left special ↦ looks (left, special)
      | Claimed e ↦ makes (Claimed e)
      | Recorded e outcome fate ↦ makes (Recorded e outcome fate)
      | PutBack e ↦ makes (PutBack e)
      | Refused e ↦ makes (Refused e)
      | Broke e outcome ↦ makes (Broke e outcome)
      | Unkept e ↦ makes (Unkept e)
    ]) b.log.items ≡ map (λ d. elim d [
      | Looked left special ↦ looks (left, special)
      | Claimed e ↦ makes (Claimed e)
      | Recorded e outcome fate ↦ makes (Recorded e outcome fate)
      | PutBack e ↦ makes (PutBack e)
      | Refused e ↦ makes (Refused e)
      | Broke e outcome ↦ makes (Broke e outcome)
      | Unkept e ↦ makes (Unkept e)
    ]) a.log.items ++ acts };

    ghost begins = { λ b. sym (append-nil _) };

    ghost joins = { λ a b c first second one two. two ∙ (ap (λ (l : List (Act Did (ℕ × ℕ))). l ++ second) one ∙ append_assoc _ first second) };

    ghost claims = { λ p c moment. (d : PlainDuty) × (p ≡ Claimed d) × (⟦<PlainDuty as HeldDuty>⟧.shows d ≡ c) × (c.reading ≡ moment) };

    // The record may find that a queue is missing.
    ghost records = { λ p a. (d : PlainDuty) × (recorded : Outcome) × (p ≡ Recorded d recorded a.fate)
        × (⟦<PlainDuty as HeldDuty>⟧.shows d ≡ a.claim)
        × ((recorded ≡ a.outcome) ⊎ (IsForQueue a.claim × (a.outcome ≡ Outcome.Accepted) × (recorded ≡ Outcome.NoQueue))) };

    ghost puts_back = { λ p c why. (d : PlainDuty) × (⟦<PlainDuty as HeldDuty>⟧.shows d ≡ c)
        × (((why ≡ unsent) × (p ≡ PutBack d)) ⊎ (((why ≡ limited) × (p ≡ Refused d)) ⊎ ((why ≡ unkept) × (p ≡ Unkept d)))) };

    ghost breaks = { λ p c outcome. (d : PlainDuty) × (p ≡ Broke d outcome) × (⟦<PlainDuty as HeldDuty>⟧.shows d ≡ c) };

    ghost idle = { λ s _. s.0 ≡ 0 };

    ghost full = { λ s _. (s.0 ≢ 0) × (s.1 ≡ 102) };

    ghost broken = { λ s _. (s.0 ≢ 0) × (s.1 ≡ 98) };

    ghost lender = { λ _. 0 };

    fn claim(&mut self, moment: u64) -> Result<Option<PlainDuty>, BookFault> {
        if self.duties.is_empty() {
            self.look();
            return Ok(None);
        }
        if self.special == b'f' {
            self.look();
            return Err(BookFault::NumberLimit);
        }
        if self.special == b'b' {
            self.look();
            return Err(BookFault::Broken);
        }
        let mut duty = self.duties.remove(0);
        duty.moment = moment;
        self.claimed = Some(duty);
        self.note(Did::Claimed(duty));
        Ok(Some(duty))
    }

    fn record_of(
        &mut self,
        held: PlainDuty,
        outcome: Outcome,
        _moment: u64,
    ) -> Result<Fate, BookFault> {
        if self.special == b'r' {
            self.restore(held, Did::Refused(held));
            return Err(BookFault::NumberLimit);
        }
        if self.special == b'k' {
            self.note(Did::Broke(held, outcome));
            self.restore(held, Did::Unkept(held));
            return Err(BookFault::Broken);
        }
        if self.special == b'u' {
            self.restore(held, Did::Unkept(held));
            return Err(BookFault::Broken);
        }
        let outcome = self.recorded(&held, outcome);
        let fate = fate_of(outcome);
        self.claimed = None;
        self.note(Did::Recorded(held, outcome, fate));
        Ok(fate)
    }

    fn put_back(&mut self, held: PlainDuty) {
        self.restore(held, Did::PutBack(held));
    }
}

// A row has, apart by `|`: what is special of the book, its duties, each `q` of a queue or `u` of a URL and numbered from 1; the
// results of the link, the readings of the clock, each with the last one repeated; and the budget. Then follow why the turn ends,
// with its attempts and how many of them delivered, dead-lettered and dropped; the numbers of answers and of faults of the link;
// the next reading; and what the book did: `+1@1000` is a claim of duty 1 at 1000, `-1` what followed for it, and `?4` a look while
// four duties could be claimed.

// The endpoint answers.
const ANSWERS: &str = "|u|199|1000|5|Idle 1 0 1 0|1|0|1000| +1@1000 -1 Code(199) DeadLettered ?0
|u|200|1000|5|Idle 1 1 0 0|1|0|1000| +1@1000 -1 Accepted Delivered ?0
|u|299|1000|5|Idle 1 1 0 0|1|0|1000| +1@1000 -1 Accepted Delivered ?0
|u|300|1000|5|Idle 1 0 1 0|1|0|1000| +1@1000 -1 Code(300) DeadLettered ?0
|u|503|1000|5|Idle 1 0 0 0|1|0|1000| +1@1000 -1 Code(503) Pending ?0
|u|failed|1000|5|Idle 1 0 0 0|0|1|1000| +1@1000 -1 NoAnswer Pending ?0
";

// The duty is young enough, or a second too old.
const AGES: &str = "|u|200|1060|1|Spent 1 1 0 0|1|0|1060| +1@1060 -1 Accepted Delivered
|u|200|1061|1|Spent 1 0 0 1|0|0|1061| +1@1061 -1 TooOld Dropped
|q|200|1060|1|Spent 1 1 0 0|0|0|1060| +1@1060 -1 Accepted Delivered
|q|200|1061|1|Spent 1 0 0 1|0|0|1061| +1@1061 -1 TooOld Dropped
no queues|q|200|1060|1|Spent 1 0 1 0|0|0|1060| +1@1060 -1 NoQueue DeadLettered
no queues|q|200|1061|1|Spent 1 0 0 1|0|0|1061| +1@1061 -1 TooOld Dropped
";

const BUDGETS: &str = "|ququ|503 404|1000 1001 1002 1003 1004 1005|0|Spent 0 0 0 0|0|0|1000|
|ququ|503 404|1000 1001 1002 1003 1004 1005|1|Spent 1 1 0 0|0|0|1001| +1@1000 -1 Accepted Delivered
|ququ|503 404|1000 1001 1002 1003 1004 1005|2|Spent 2 1 0 0|1|0|1002| +1@1000 -1 Accepted Delivered +2@1001 -2 Code(503) Pending
|ququ|503 404|1000 1001 1002 1003 1004 1005|4|Spent 4 2 1 0|2|0|1004| +1@1000 -1 Accepted Delivered +2@1001 -2 Code(503) Pending +3@1002 -3 Accepted Delivered +4@1003 -4 Code(404) DeadLettered
|ququ|503 404|1000 1001 1002 1003 1004 1005|9|Idle 4 2 1 0|2|0|1005| +1@1000 -1 Accepted Delivered +2@1001 -2 Code(503) Pending +3@1002 -3 Accepted Delivered +4@1003 -4 Code(404) DeadLettered ?0
";

const FAULTS: &str = "full|ququ|503 memory|1000|9|Full 0 0 0 0|0|0|1000| ?4
broken|ququ|503 memory|1000|9|Broken 0 0 0 0|0|0|1000| ?4
|ququ|503 memory|1000|9|NoMemory 3 2 0 0|1|0|1000| +1@1000 -1 Accepted Delivered +2@1000 -2 Code(503) Pending +3@1000 -3 Accepted Delivered +4@1000 -4 back
";

const REFUSED: &str = "refuses|ququ|503 200|1000|9|Full 0 0 0 0|0|0|1000| +1@1000 -1 refused
keeps none|uquq|503 200|1000|9|Broken 0 0 0 0|1|0|1000| +1@1000 -1 broke Code(503) -1 unkept
un-keeps|ququ|503 200|1000|9|Broken 0 0 0 0|0|0|1000| +1@1000 -1 unkept
";

const READINGS: &str =
    "|ququ|200|1000 990|2|Spent 2 2 0 0|1|0|990| +1@1000 -1 Accepted Delivered +2@990 -2 Accepted Delivered
|ququ|200|1000 1000|2|Spent 2 2 0 0|1|0|1000| +1@1000 -1 Accepted Delivered +2@1000 -2 Accepted Delivered
|ququ|200|250000000000 250000000001|2|Spent 2 0 0 2|0|0|250000000001| +1@250000000000 -1 TooOld Dropped +2@250000000000 -2 TooOld Dropped
|ququ|200|18446744073709551615 0|2|Spent 2 1 0 1|1|0|0| +1@250000000000 -1 TooOld Dropped +2@0 -2 Accepted Delivered
";

fn duties_of<R: Abort + Drop>(rt: R, alloc: Global, letters: &str) -> Vec<PlainDuty> {
    let mut duties = Vec::new(alloc);
    let mut number = 0u64;
    for letter in letters.bytes() {
        number = number.saturating_add(1);
        let endpoint = if letter == b'q' {
            "arn:aws:sqs:us-east-1:111122223333:orders"
        } else {
            "http://127.0.0.1/x"
        };
        let duty = PlainDuty {
            number,
            endpoint,
            moment: 0,
        };
        duties.push(duty).expect(&rt, "duties");
    }
    duties
}

fn answer_of<R: Abort + Drop>(rt: R, word: &str) -> Result<u16, LinkFault> {
    match word {
        "failed" => Err(LinkFault::Failed),
        "memory" => Err(LinkFault::NoMemory),
        _ => Ok(word.parse::<u16>().expect(&rt, word)),
    }
}

fn link_of<R: Abort + Copy + Drop>(rt: R, alloc: Global, words: &str) -> MemLink {
    let (first, rest) = words.split_once(' ').unwrap_or((words, ""));
    let mut later = Vec::new(alloc);
    for word in rest.split_whitespace() {
        later.push(answer_of(rt, word)).expect(&rt, "answers");
    }
    MemLink::new(alloc, answer_of(rt, first), later)
}

fn clock_of<R: Abort + Drop>(rt: R, alloc: Global, words: &str) -> MemClock {
    let (first, rest) = words.split_once(' ').unwrap_or((words, ""));
    let mut later = Vec::new(alloc);
    for word in rest.split_whitespace() {
        let reading = word.parse::<u64>().expect(&rt, word);
        later.push(reading).expect(&rt, "readings");
    }
    MemClock::new(first.parse::<u64>().expect(&rt, first), later)
}

fn note<R: Abort + Drop>(rt: R, text: &mut String, did: Did) {
    match did {
        Did::Looked(left, _) => write!(text, " ?{left}"),
        Did::Claimed(duty) => write!(text, " +{}@{}", duty.number, duty.moment),
        Did::Recorded(duty, outcome, fate) => {
            write!(text, " -{} {outcome:?} {fate:?}", duty.number)
        }
        Did::PutBack(duty) => write!(text, " -{} back", duty.number),
        Did::Refused(duty) => write!(text, " -{} refused", duty.number),
        Did::Broke(duty, outcome) => write!(text, " -{} broke {outcome:?}", duty.number),
        Did::Unkept(duty) => write!(text, " -{} unkept", duty.number),
    }
    .expect(&rt, "a text");
}

// What a turn of the book leaves, as a row has it.
fn left<R: Abort + Copy + Drop>(
    rt: R,
    alloc: Global,
    book: &mut PlainBook<R>,
    link: &mut MemLink,
    clock: &mut MemClock,
    budget: u32,
) -> String
    requires rests { book.old.claimed ≡ None }
{
    let Stepped { turned, stop } = turn(book, link, clock, budget);
    let Turned {
        attempts,
        delivered,
        dead,
        dropped,
    } = turned;
    let (answers, faults, next) = (link.answers.len(), link.faults(), clock.now());
    let mut text = format!(in alloc;
        "{stop:?} {attempts} {delivered} {dead} {dropped}|{answers}|{faults}|{next}|"
    ).expect(&rt, "a text");
    for did in &book.log {
        note(rt, &mut text, *did);
    }
    text
}

// Fails unless each row of the table is met.
fn meet_all<R: Abort + Copy + Drop>(rt: R, alloc: Global, rows: &str, count: usize) {
    assert_eq!(rt; rows.lines().count(), count);
    for row in rows.lines() {
        meet(rt, alloc, row);
    }
}

fn meet<R: Abort + Copy + Drop>(rt: R, alloc: Global, row: &str) {
    let (special, duties, answers, rest) = four(row);
    let (readings, rest) = two(rest);
    let (budget, want) = two(rest);
    let mut book = PlainBook {
        rt,
        special: special.bytes().next().unwrap_or(b' '),
        duties: duties_of(rt, alloc, duties),
        claimed: None,
        log: Vec::new(alloc),
    };
    let mut link = link_of(rt, alloc, answers);
    let mut clock = clock_of(rt, alloc, readings);
    let budget = budget.parse::<u32>().expect(&rt, row);
    let left = left(rt, alloc, &mut book, &mut link, &mut clock, budget);
    assert_eq!(rt; left.as_str(), want, "{row}");
}

#[test]
fn an_outcome_is_what_the_link_answered(rt: HostRuntime) {
    meet_all(rt, rt.alloc(), ANSWERS, 6);
}

#[test]
fn only_a_young_duty_of_an_endpoint_is_sent(rt: HostRuntime) {
    meet_all(rt, rt.alloc(), AGES, 6);
}

#[test]
fn a_turn_makes_attempts_within_its_budget(rt: HostRuntime) {
    meet_all(rt, rt.alloc(), BUDGETS, 5);
}

#[test]
fn a_fault_leaves_no_claim_open(rt: HostRuntime) {
    meet_all(rt, rt.alloc(), FAULTS, 3);
}

#[test]
fn a_refused_record_puts_its_claim_back(rt: HostRuntime) {
    meet_all(rt, rt.alloc(), REFUSED, 3);
}

#[test]
fn each_claim_has_a_reading_of_its_own(rt: HostRuntime) {
    meet_all(rt, rt.alloc(), READINGS, 4);
}
