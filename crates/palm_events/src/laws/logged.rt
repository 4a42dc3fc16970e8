//! Laws on logs: what removals name, and what a withdrawal leaves.
ghost use Rattle.std.specs.Prelude.{◌≡◌, ◌↔◌, List, Contains};
ghost use Rattle.palm_base.specs.declared.terms.Cid.{Cid};
ghost use Rattle.palm_model.specs.Domains.{Domains};
ghost use Rattle.palm_model.specs.Closure.{Explains};
ghost use Rattle.palm_base.specs.Order.{Rises};
ghost use Rattle.palm_model.specs.Log.{Active, IsActive, Named, Removal, IsWellFounded, Names, Loses, IsListOf};
ghost use Rattle.palm_model.specs.State.{EngineState, IsValid};
ghost use Rattle.palm_model.specs.Event.{without_cids, WithdrawsAll};

/// The constraints that a removal of a well founded log names explain its pair.
pub fn removals_are_explained()
    ensures { (initial : Domains) (active : List Active) (log : List Removal) (r : Removal)
        → IsWellFounded initial active log → Contains log r
        → Explains initial (Named active (λ c. Names log c r)) r.pair.var r.pair.value }
{}

/// All that a removal of a well founded log names is active.
pub fn explanations_are_active()
    ensures { (initial : Domains) (active : List Active) (log : List Removal) (r : Removal) (cid : Cid)
        → IsWellFounded initial active log → Contains log r → Names log cid r → IsActive active cid }
{}

/// No pair stands in a well founded log twice.
pub fn pairs_are_logged_once()
    ensures { (initial : Domains) (active : List Active) (log : List Removal) (q r : Removal)
        → IsWellFounded initial active log → Contains log q → Contains log r → q.pair ≡ r.pair → q ≡ r }
{}

/// What a withdrawal leaves of a well founded log is well founded, with the constraints that are still active.
pub fn withdrawals_keep_logs_well_founded()
    ensures { (initial : Domains) (active : List Active) (log left : List Removal) (gone : List Cid)
        → IsWellFounded initial active log → Loses log gone log left
        → IsWellFounded initial (without_cids gone active) left }
{}

/// Whatever goes from a valid state, the withdrawal has an outcome.
pub fn withdrawals_have_an_outcome()
    ensures { (s : EngineState) (gone : List Cid) → IsValid s → (t : EngineState) × WithdrawsAll s gone t }
{}

/// And no other one.
pub fn withdrawals_have_one_outcome()
    ensures { (s t u : EngineState) (gone : List Cid) → WithdrawsAll s gone t → WithdrawsAll s gone u → t ≡ u }
{}

/// The explanation of a removal is a list of ids.
pub fn explanations_are_lists()
    ensures { (s : EngineState) (r : Removal) → IsValid s → Contains s.log r
        → (list : List Cid) × IsListOf (λ c. Names s.log c r) list }
{}

/// Two rising lists of the same ids are one.
pub fn lists_of_ids_are_unique()
    ensures { (xs ys : List Cid) → Rises xs → Rises ys → ((c : Cid) → Contains xs c ↔ Contains ys c) → xs ≡ ys }
{}
