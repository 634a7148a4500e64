//! What holds of the bytes of all batches, and of all journals.
ghost use Rattle.std.specs.Prelude.{◌≡◌, ◌++◌, ℕ, List, length};
ghost use Rattle.std.specs.List.{AllByRecursion};
ghost use Rattle.rule_table.specs.RuleSet.{Rule};
ghost use Rattle.rule_table.specs.Target.{row_of};
ghost use Rattle.rule_targets.specs.declared.target.Target.{Target};
ghost use Rattle.delivery_duties.specs.declared.duty.NewDuty.{NewDuty};
ghost use Rattle.entry_bytes.specs.Duty.{IsNamed};
ghost use Rattle.router_core.specs.Admitted.{IsAdmitted};
ghost use Rattle.router_core.specs.Tables.{Tables, after_batch, first_tables};
ghost use Rattle.router_requests.specs.Batch.{Batch};
ghost use Rattle.duty_journal.specs.Batch.{batch_bytes, FitsBytes, IsReadable, NamesRules};
ghost use Rattle.duty_journal.specs.Journal.{AreKept, IsDamagedJournal, IsJournal};
ghost use Rattle.duty_journal.specs.Redo.{HasNoClaim};
ghost use Rattle.record_file.specs.Records.{first_gate};
ghost use Rattle.router_disk.specs.declared.disk_call.DiskCall.{DiskCall};
ghost use Rattle.duty_journal.specs.Named.{AreNamedByArns, IsNamedByArn};

/// Two batches with the same bytes are the same, and the bytes of one do not begin with those of another.
pub fn a_batch_has_its_own_bytes()
    ensures { (a b : Batch) (x y : List ℕ) → IsReadable a → IsReadable b → batch_bytes a ++ x ≡ batch_bytes b ++ y → (a ≡ b) × (x ≡ y) }
{}

/// A file is a journal of at most one list of batches, or is damaged at no more than one place, and never both.
pub fn a_file_is_one_journal()
    ensures one_list { (file : List ℕ) (start : Tables) (bs cs : List Batch) → IsJournal file start bs → IsJournal file start cs → bs ≡ cs }
    ensures never_both { (file : List ℕ) (start : Tables) (bs cs : List Batch) (place byte : ℕ) → IsJournal file start bs →
        IsDamagedJournal file first_gate start cs place byte → ⊥ }
    ensures one_place { (file : List ℕ) (at : ℕ) (start : Tables) (bs cs : List Batch) (place byte other_place other_byte : ℕ) →
        IsDamagedJournal file at start bs place byte → IsDamagedJournal file at start cs other_place other_byte →
        (bs ≡ cs) × (place ≡ other_place) × (byte ≡ other_byte) }
{}

/// A batch that tables admit is read back from its bytes, if they have room for it and its duties name their rules. A duty does whose row is
/// that of a target of a rule of such tables.
pub fn rows_name_their_rules()
    ensures readable { (t : Tables) (b : Batch) → FitsBytes b → AllByRecursion NamesRules b.entries → IsAdmitted t b → IsReadable b }
    ensures first { AreNamedByArns first_tables.set }
    ensures after { (t : Tables) (b : Batch) → IsAdmitted t b → AreNamedByArns t.set → AreNamedByArns (after_batch b t).set }
    ensures row { (rule : Rule) (target : Target) (duty : NewDuty) → IsNamedByArn rule → duty.target ≡ row_of rule target → IsNamed duty }
{}

/// Batches claim no duty: where none is claimed before a batch, none is after it.
pub fn no_batch_claims()
    ensures first { HasNoClaim first_tables }
    ensures after { (t : Tables) (b : Batch) → HasNoClaim t → HasNoClaim (after_batch b t) }
{}

/// What is kept since a moment is kept since the present one, with the batches that are safe.
pub fn safe_batches_are_found()
    ensures { (first : List ℕ) (calls : List DiskCall) (start : Tables) (found : List Batch) (since : ℕ) (safe all : List Batch) →
        AreKept first calls start found since safe all → AreKept first calls start safe (length calls) safe all }
{}
