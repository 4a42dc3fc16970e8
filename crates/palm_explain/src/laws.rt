//! Laws on logs and on the pairs that a store lacks, each the contract of a function with an empty body.
ghost use Rattle.std.specs.Prelude.{◌≡◌, ◌↔◌, ◌⊎◌, List, [], ◌∷◌, ◌++◌, All, Contains, slice_set};
ghost use Rattle.palm_base.specs.declared.terms.Pair.{Pair};
ghost use Rattle.palm_base.specs.declared.terms.Cid.{Cid};
ghost use Rattle.palm_domain.specs.Rows.{Row, Ascends, IsPresent, initial_of, present_of, present_values, values_without};
ghost use Rattle.palm_model.specs.Domains.{Domains};
ghost use Rattle.palm_model.specs.Event.{lost_pairs};
ghost use Rattle.palm_model.specs.Log.{Active, Removal, IsWellFounded, Loses};
ghost use Rattle.palm_explain.specs.Explanations.{IsLinked, LacksExactly};

/// A well founded log is linked.
pub fn well_founded_logs_are_linked()
    ensures { (initial : Domains) (active : List Active) (log : List Removal)
        → IsWellFounded initial active log → IsLinked log }
{}

/// What is left when some ids go and then more is what is left when all of them go at once, and the pairs that
/// the two steps lose are the pairs that are lost at once.
pub fn withdrawals_add_up()
    ensures left { (log middle left : List Removal) (first then : List Cid)
        → Loses log first log middle → Loses middle then middle left → Loses log (first ++ then) log left }
    ensures lost { (log middle left : List Removal) (first then : List Cid)
        → Loses log first log middle → Loses middle then middle left → (p : Pair)
        → Contains (lost_pairs log left) p ↔ (Contains (lost_pairs log middle) p ⊎ Contains (lost_pairs middle left) p) }
{}

/// A store of which all declared values are present lacks no pair.
pub fn full_stores_lack_nothing()
    ensures { (rows : List Row) → present_of rows ≡ initial_of rows → LacksExactly rows [] }
{}

/// A store from which one more pair is taken out lacks exactly that one more.
pub fn stores_lack_what_is_taken_out()
    ensures { (before after : List Row) (pairs : List Pair) (p : Pair)
        → LacksExactly before pairs → All Ascends (initial_of before) → IsPresent before p.var p.value
        → initial_of after ≡ initial_of before
        → present_of after ≡ slice_set (present_of before) p.var (values_without p.value (present_values before p.var))
        → LacksExactly after (pairs ++ p ∷ []) }
{}
