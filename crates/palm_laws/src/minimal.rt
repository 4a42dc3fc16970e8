//! Laws on minimal sets. Each is stated of conflicts and of explanations.
ghost use Rattle.std.specs.Prelude.{◌≡◌, ◌↔◌, ◌<◌, ◌++◌, ℕ, List, length, remove, Contains};
ghost use Rattle.palm_base.specs.declared.terms.Cid.{Cid};
ghost use Rattle.palm_base.specs.declared.terms.Pair.{Pair};
ghost use Rattle.palm_model.specs.Closure.{Explains, IsConflict};
ghost use Rattle.palm_model.specs.Domains.{AllAscend, Domains};
ghost use Rattle.palm_base.specs.Order.{Rises};
ghost use Rattle.palm_model.specs.Log.{Active, Named, cids_of};
ghost use Rattle.palm_model.specs.Minimal.{AreConflict, DoExplain, IsMinimalConflict, IsMinimalExplanation, WalkLeaves};
ghost use Rattle.palm_model.specs.declared.constraint.Con.{Con};

/// More constraints are a conflict where fewer are.
pub fn conflicts_grow()
    ensures { (initial : Domains) (cs more : List Con)
        → ((c : Con) → Contains cs c → Contains more c)
        → IsConflict initial (Contains cs) → IsConflict initial (Contains more) }
{}

/// The constraints of a minimal set have the property.
pub fn minimal_sets_have_the_property()
    ensures conflict { (initial : Domains) (active : List Active) (cids : List Cid)
        → IsMinimalConflict initial active cids → IsConflict initial (Named active (Contains cids)) }
    ensures explanation { (initial : Domains) (active : List Active) (pair : Pair) (cids : List Cid)
        → IsMinimalExplanation initial active pair cids → Explains initial (Named active (Contains cids)) pair.var pair.value }
{}

/// No member of a minimal set can be left out.
pub fn no_member_can_be_left_out()
    ensures conflict { (initial : Domains) (active : List Active) (cids : List Cid) (minimal : IsMinimalConflict initial active cids) (place : ℕ)
        → place < length cids → AreConflict initial (remove minimal.left place) → ⊥ }
    ensures explanation { (initial : Domains) (active : List Active) (pair : Pair) (cids : List Cid) (minimal : IsMinimalExplanation initial active pair cids) (place : ℕ)
        → place < length cids → DoExplain initial pair (remove minimal.left place) → ⊥ }
{}

/// The members of a minimal set are among the constraints, in their order.
pub fn minimal_sets_are_within()
    ensures conflict { (initial : Domains) (active : List Active) (cids : List Cid) (minimal : IsMinimalConflict initial active cids) (a : Active)
        → Contains minimal.left a → Contains active a }
    ensures explanation { (initial : Domains) (active : List Active) (pair : Pair) (cids : List Cid) (minimal : IsMinimalExplanation initial active pair cids) (a : Active)
        → Contains minimal.left a → Contains active a }
    ensures conflict_rises { (initial : Domains) (active : List Active) (cids : List Cid)
        → IsMinimalConflict initial active cids → Rises (cids_of active) → Rises cids }
    ensures explanation_rises { (initial : Domains) (active : List Active) (pair : Pair) (cids : List Cid)
        → IsMinimalExplanation initial active pair cids → Rises (cids_of active) → Rises cids }
{}

/// There is a minimal set exactly where all of the constraints together have the property.
pub fn minimal_sets_exist()
    ensures conflict { (initial : Domains) (active : List Active) → AllAscend initial
        → (AreConflict initial active ↔ ((cids : List Cid) × IsMinimalConflict initial active cids)) }
    ensures explanation { (initial : Domains) (active : List Active) (pair : Pair) → AllAscend initial
        → (DoExplain initial pair active ↔ ((cids : List Cid) × IsMinimalExplanation initial active pair cids)) }
{}

/// There are no two different ones of the same constraints.
pub fn minimal_sets_are_unique()
    ensures conflict { (initial : Domains) (active : List Active) (cids others : List Cid)
        → IsMinimalConflict initial active cids → IsMinimalConflict initial active others → cids ≡ others }
    ensures explanation { (initial : Domains) (active : List Active) (pair : Pair) (cids others : List Cid)
        → IsMinimalExplanation initial active pair cids → IsMinimalExplanation initial active pair others → cids ≡ others }
{}

/// Where some of the constraints before a block and of those left behind it have the property, the walk leaves out each
/// constraint of the block.
pub fn blocks_outside_a_core_are_left_out()
    ensures conflict { (initial : Domains) (earlier block later left core : List Active)
        → WalkLeaves (AreConflict initial) (earlier ++ block) later left
        → ((a : Active) → Contains core a → Contains (earlier ++ left) a) → AreConflict initial core
        → WalkLeaves (AreConflict initial) earlier (block ++ later) left }
    ensures explanation { (initial : Domains) (pair : Pair) (earlier block later left core : List Active)
        → WalkLeaves (DoExplain initial pair) (earlier ++ block) later left
        → ((a : Active) → Contains core a → Contains (earlier ++ left) a) → DoExplain initial pair core
        → WalkLeaves (DoExplain initial pair) earlier (block ++ later) left }
{}
