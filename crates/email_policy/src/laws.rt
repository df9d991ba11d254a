// What the definitions promise, each held by a function's contract.
ghost use Rattle.email_policy.specs.Numbers.{Numbers};
ghost use Rattle.email_policy.specs.Examples.{Records, Keys};
ghost use Rattle.email_policy.specs.Keys.{RisesOrders};
ghost use Rattle.email_policy.specs.Law.{ReadsPolicies, PacksPolicies, ReadsWhole, PacksWhole, DefaultsReadBack};
ghost use Rattle.email_policy.specs.Lawful.{PlaceFree};

/// Numbers and cases stand for one another.
pub fn numbers_stand()
    ensures { Numbers }
{}

/// The worked examples of records and keys.
pub fn examples_stand()
    ensures records { Records }
    ensures keys { Keys }
{}

/// The law of records at any place of a slice: what is accepted is the packed record of the policy read from it, and
/// every packed record of a policy within the limits is accepted and read back.
pub fn policies_stand()
    ensures reads { ReadsPolicies }
    ensures packs { PacksPolicies }
{}

/// A record that fills its slice is accepted exactly when some policy packs to it, and that policy is read.
pub fn records_stand()
    ensures reads { ReadsWhole }
    ensures packs { PacksWhole }
{}

/// The defaults are read back from the policy that they are packed as, and such a policy from its defaults.
pub fn defaults_stand()
    ensures { DefaultsReadBack }
{}

/// Whether texts and keys pass their questions does not depend on where they stand.
pub fn questions_stand()
    ensures { PlaceFree }
{}

/// The order of keys is one order: no key rises above itself, what rises above a key rises above those below it, and of
/// two keys that differ one rises above the other. Each key that passes its questions rises above the empty text.
pub fn keys_rise()
    ensures { RisesOrders }
{}
