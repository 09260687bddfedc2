//! Laws of bags, each the contract of a function that does nothing.
ghost use Rattle.std.specs.Prelude.{◌≡◌, ◌≤◌, ℕ, List};
ghost use Rattle.picky_der.specs.declared.fault.DerError.{DerError};
ghost use Rattle.picky_x509_safe_bags.specs.Bag.{bag_within, safe_bag};
ghost use Rattle.picky_x509_safe_bags.specs.laws.Grows.{Grows};

/// A bag without a limit is read as with any limit of 86 levels or more, whatever stands for a bag that is deeper: none is met.
#[tactic(auto, using(crate::specs::laws::Bag::bag_reads_alike))]
pub fn enough_levels_are_no_limit()
    ensures { (deep : DerError) (levels depth : ℕ) (bytes : List ℕ) → 86 ≤ levels → safe_bag.reading depth bytes ≡ (bag_within deep levels).reading depth bytes }
{}

/// What is said of a bag at some number of levels is said of it at each greater one, its height too.
#[tactic(auto, using(crate::specs::laws::Grows::within_grows))]
pub fn more_levels_say_the_same()
    ensures { (deep other : DerError) (few more : ℕ) → few ≤ more → Grows (bag_within deep few) (bag_within other more) }
{}
