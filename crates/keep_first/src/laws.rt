// What keep-first promises, each law held by a function's contract.
ghost use Rattle.std.specs.Prelude.{Bool, List};
ghost use Rattle.std.specs.List.{ContainsAt as Has};
ghost use Rattle.keep_first.specs.Model.{Equivalence};
ghost use Rattle.keep_first.specs.Laws.{KeepsFirsts, StandsIn, Keeps, Commutes};

/// The firsts of a list are apart, each of the list is the same as one of them, and they are in its order.
pub fn firsts_keep<T>()
    ensures { (same : T → T → Bool) (xs : List T) → Equivalence same → KeepsFirsts same xs }
{}

/// What stands at the place of an element is of the list and the same, and preferred where one such is.
pub fn stand_in_stands<T>()
    ensures { (same : T → T → Bool) (preferred : T → Bool) (xs : List T) (x : T) → Equivalence same → Has xs x → StandsIn same preferred xs x }
{}

/// What is kept of a list is apart, reaches each of the list, is of the list, and preferred where it can be.
pub fn keep_first_keeps<T>()
    ensures { (same : T → T → Bool) (preferred : T → Bool) (xs : List T) → Equivalence same → Keeps same preferred xs }
{}

/// Keep-first over places is keep-first over what stands there.
pub fn keep_first_commutes<T, U>()
    ensures { Commutes T U }
{}
