//! The law of the proofs that searches write.
ghost use Rattle.std.specs.Prelude.{◌≡◌, ◌++◌, ℕ, ◌≤◌, Bool, false, List};
ghost use Rattle.palm_base.specs.declared.terms.Cid.{Cid};
ghost use Rattle.palm_book.specs.Book.{Contents, IsBook, active_of, initial_of};
ghost use Rattle.palm_events.specs.Scoped.{HasScopedReasons};
ghost use Rattle.palm_model.specs.State.{EngineState, IsValid};
ghost use Rattle.palm_search.specs.Kept.{HasOnlyUsers};
ghost use Rattle.palm_search.specs.declared.ending.SearchEnd.{SearchEnd};
ghost use Rattle.palm_search.specs.declared.ending.SearchEnd.TheVariants.{NoSolution};
ghost use Rattle.palm_search.specs.declared.turn.Turn.{Turn};
ghost use Rattle.proof_run.specs.Accepted.{IsAccepted};
ghost use Rattle.proof_run.specs.SoFar.{IsTextSoFar};
ghost use Rattle.proof_run.specs.Text.{Proves};

/// What a search writes that finds no solution is accepted by the checker's definition, and what is accepted is that just
/// the constraints that the search answers have none. `prove` ensures it of every engine.
pub fn proofs_are_accepted()
    ensures { (guided ordered : Bool) (budget : ℕ) (book : Contents) (s : EngineState) (turns : List Turn) (users : List Cid) (t : EngineState) (text : List ℕ)
        → IsBook book → IsValid s → s.initial ≡ initial_of book → s.active ≡ active_of book → HasScopedReasons s → budget ≤ 18446744073709551615
        → Proves guided ordered budget book s turns (NoSolution users) t text → IsAccepted book users text }
{}

/// What was to be written when a run was broken off is a front of what some search writes.
pub fn proofs_go_on()
    ensures { (guided ordered : Bool) (budget : ℕ) (book : Contents) (s : EngineState) (turns : List Turn) (text : List ℕ)
        → IsValid s → HasOnlyUsers s → IsTextSoFar book guided ordered budget s turns text
        → (all : List Turn) × (end : SearchEnd) × (t : EngineState) × (whole back : List ℕ) × Proves guided ordered budget book s all end t whole × (whole ≡ text ++ back) }
{}

/// Without a guide and an order two searches from one state write one text.
pub fn one_text_is_written()
    ensures { (budget : ℕ) (book : Contents) (s : EngineState) (turns others : List Turn) (end other : SearchEnd) (t u : EngineState) (text reply : List ℕ)
        → IsValid s → HasOnlyUsers s → Proves false false budget book s turns end t text → Proves false false budget book s others other u reply → text ≡ reply }
{}
