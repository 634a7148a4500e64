//! Laws of archives.
ghost use Rattle.std.specs.Prelude.{◌≡◌, ◌≤◌, ℕ, true, All};
ghost use Rattle.archive_keep.specs.Archive.{Archive, is_retained, purged, retained_at, with_days};

/// What an archive retains at a later moment was not dropped before. After an update the archive has only what it retained by its
/// old days.
pub fn what_is_retained_later_was_not_dropped()
    ensures purge { (moment later : ℕ) (a : Archive) → moment ≤ later → retained_at later (purged moment a) ≡ retained_at later a }
    ensures update { (days moment : ℕ) (a : Archive) → All (λ e. is_retained a.days moment e ≡ true) (with_days days moment a).events }
{}
