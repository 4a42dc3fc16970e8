//! Laws on the work of a settling.
ghost use Rattle.std.specs.Prelude.{◌≡◌, ℕ, Option, List, [], length};
ghost use Rattle.palm_base.specs.declared.terms.Cid.{Cid};
ghost use Rattle.palm_model.specs.Domains.{Domains};
ghost use Rattle.palm_model.specs.State.{EngineState, IsValid};
ghost use Rattle.palm_model.specs.Event.{Withdraws};
ghost use Rattle.palm_model.specs.declared.constraint.Con.{Con};
ghost use Rattle.palm_engine.specs.Settling.{Revision, Settles, walk_order};
ghost use Rattle.palm_engine.specs.Work.{IsPaid, IsPaidBack, size_of};

/// A revision looks at as many pairs as the declared values of its constraint's variables add up to.
pub fn walks_look_at_each_pair_once()
    ensures { (initial : Domains) (c : Con) → length (walk_order initial c) ≡ size_of initial c }
{}

/// The revisions of a settling look at no more pairs than the constraints that were pending have, and, for each pair that
/// the settling removes, the active constraints over the pair's variable.
pub fn settlings_ask_no_more()
    ensures { (limit : Option ℕ) (s t : EngineState) (rs : List Revision)
        → IsValid s → Settles limit s rs t → IsPaid s rs t }
{}

/// A settling behind a withdrawal at which nothing was pending asks no more than the active constraints over each variable of
/// which values came back have pairs, each variable taken once, and, for each pair that the settling removes, those over the
/// pair's variable.
pub fn settlings_after_withdrawals_ask_no_more()
    ensures { (limit : Option ℕ) (s m t : EngineState) (cid : Cid) (rs : List Revision)
        → IsValid s → s.pending ≡ [] → Withdraws s cid m → Settles limit m rs t → IsPaidBack s m rs t }
{}
