//! Laws of duties.
ghost use Rattle.std.specs.Prelude.{◌≡◌, ◌≢◌, ◌+◌, ℕ, List, map, Some};
ghost use Rattle.delivery_duties.specs.declared.duty.NewDuty.{NewDuty};
ghost use Rattle.delivery_duties.specs.declared.duty.DutyRow.{DutyRow};
ghost use Rattle.delivery_duties.specs.declared.outcome.Outcome.{Outcome};
ghost use Rattle.delivery_duties.specs.Retry.{State, waits, first_state, after_attempt, after_attempts, state_of, fate_of};
ghost use Rattle.delivery_duties.specs.Duties.{Duties, IsFree, IsOrdered, attempt_of, claimed, has_dead_letter_queue, pending_row, unclaimed};
ghost use Rattle.delivery_duties.specs.Duties.{added, added_one, forgotten, no_duties, settled, with_deleted, with_new_queue};
ghost use Rattle.delivery_duties.specs.Fate.{Act, adds, AreNumbered, after_acts, attempts_in, fate_in, state_in, unmarked};

/// A duty that is claimed and whose claim is released is as it was, and so are all others.
pub fn a_claim_put_back_changes_nothing()
    ensures { (s : Duties) (n : ℕ) → IsOrdered s → IsFree n s → unclaimed n (claimed n s) ≡ s }
{}

/// A duty that is added has its first state, and no other duty's state changes. Duties that are added together are added one by one.
pub fn a_duty_begins_in_its_first_state()
    ensures own { (s : Duties) (duty : NewDuty) (moment : ℕ) → AreNumbered s → state_in (s.created + 1) (added_one duty moment s)
        ≡ Some (first_state (s.created + 1) moment duty (has_dead_letter_queue duty.target s.queues)) }
    ensures others { (s : Duties) (duty : NewDuty) (moment n : ℕ) → AreNumbered s → n ≢ s.created + 1
        → state_in n (added_one duty moment s) ≡ state_in n s }
    ensures each { (s : Duties) (duties : List NewDuty) (moment : ℕ) → added duties moment s ≡ after_acts (map (λ duty. adds duty moment) duties) s }
{}

/// A recorded attempt changes the state of its duty as `after_attempt` says, and the state of no other duty.
pub fn an_attempt_changes_the_state_of_its_duty_alone()
    ensures own { (s : Duties) (n moment : ℕ) (outcome : Outcome) (row : DutyRow) → AreNumbered s → pending_row n s ≡ Some row
        → state_in n (settled n moment outcome s) ≡ Some (after_attempt (waits (unmarked row)) (attempt_of row moment outcome s)) }
    ensures others { (s : Duties) (n moment : ℕ) (outcome : Outcome) (other : ℕ) → AreNumbered s → other ≢ n
        → state_in other (settled n moment outcome s) ≡ state_in other s }
{}

/// Claims, queues and deleted messages change the state of no duty.
pub fn no_other_act_changes_a_state()
    ensures claimed { (s : Duties) (n other : ℕ) → AreNumbered s → state_in other (claimed n s) ≡ state_in other s }
    ensures unclaimed { (s : Duties) (n other : ℕ) → AreNumbered s → state_in other (unclaimed n s) ≡ state_in other s }
    ensures created { (s : Duties) (name : List ℕ) (n : ℕ) → state_in n (with_new_queue name s) ≡ state_in n s }
    ensures forgotten { (s : Duties) (name : List ℕ) (n : ℕ) → state_in n (forgotten name s) ≡ state_in n s }
    ensures deleted { (s : Duties) (queue : List ℕ) (through n : ℕ) → state_in n (with_deleted queue through s) ≡ state_in n s }
{}

/// After any acts the state of a duty is the one that the attempts which the acts record of it lead to. So its fate is that of the
/// attempts that were recorded since it was made.
pub fn a_fate_is_that_of_the_recorded_attempts()
    ensures state { (s : Duties) (n : ℕ) (state : State) (acts : List Act) → AreNumbered s → state_in n s ≡ Some state
        → state_in n (after_acts acts s) ≡ Some (after_attempts state (attempts_in n acts s)) }
    ensures fate { (s : Duties) (duty : NewDuty) (moment : ℕ) (acts : List Act) → AreNumbered s
        → fate_in (s.created + 1) (after_acts acts (added_one duty moment s))
        ≡ Some (fate_of (state_of (s.created + 1) moment duty (has_dead_letter_queue duty.target s.queues)
        (attempts_in (s.created + 1) acts (added_one duty moment s)))) }
    ensures numbered { (acts : List Act) → AreNumbered (after_acts acts no_duties) }
{}
