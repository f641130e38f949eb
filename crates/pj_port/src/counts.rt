//! How counts of reads add up.
ghost use Rattle.std.specs.Prelude.{◌≡◌, ℕ, ◌+◌};
ghost use Rattle.pj_port.specs.Counts.{risen, RoseAtMost};

/// A count that rose by some and then by more rose by both, though it stands still at the last u64: the reads
/// of a call are those of its parts, added up.
pub fn rises_add_up()
    ensures exact { (count m n : ℕ) → risen (risen count m) n ≡ risen count (m + n) }
    ensures at_most { (count n : ℕ) → RoseAtMost n count (risen count n) }
    ensures together { (m n before between now : ℕ) → RoseAtMost m before between
        → RoseAtMost n between now → RoseAtMost (m + n) before now }
{}
