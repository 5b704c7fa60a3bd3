//! What holds of totals over lists, each law the contract of a function that does nothing.
//! The lemmas behind them, and those on facts of each element, are in proofs/.

ghost use Rattle.list_totals.specs.Laws.{ChangeLaw, PartsLaw, WholeLaw};

/// One place of a list is changed: the total loses what stood there and gains what stands there now.
pub fn a_change_moves_the_total<T>()
    ensures change { ChangeLaw T }
{}

/// What stands at two different places is together at most the total.
pub fn parts_are_at_most_the_total<T>()
    ensures parts { PartsLaw T }
{}

/// Where one place has the whole size, it has all of each total to which only what has size adds.
pub fn who_has_all_that_counts_has_the_total<T>()
    ensures whole { WholeLaw T }
{}
