// The laws of the format.
ghost use Rattle.std.specs.Prelude.{◌≡◌, ℕ, List};
ghost use Rattle.record_file.specs.Records.{IsDamagedAt, IsFileOf, first_gate};

/// A file has the payloads of at most one list, or is damaged at no more than one place, and never both.
pub fn one_reading()
    ensures one_list { (file : List ℕ) (ps qs : List (List ℕ)) → IsFileOf file ps → IsFileOf file qs → ps ≡ qs }
    ensures never_both { (file : List ℕ) (ps qs : List (List ℕ)) (place byte : ℕ) → IsFileOf file ps → IsDamagedAt file first_gate qs place byte → ⊥ }
    ensures one_place { (file : List ℕ) (at : ℕ) (ps qs : List (List ℕ)) (place byte other_place other_byte : ℕ) → IsDamagedAt file at ps place byte →
        IsDamagedAt file at qs other_place other_byte → (ps ≡ qs) × (place ≡ other_place) × (byte ≡ other_byte) }
{}
