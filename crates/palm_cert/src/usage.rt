//! Which variables a certificate declares.
ghost use Rattle.std.specs.Prelude.{◌≡◌, List, length};
ghost use Rattle.palm_cert.specs.Certificate.{cited, is_used};
ghost use Rattle.palm_cert.specs.Needs.{cites_of, has_term, has_var};
ghost use Rattle.palm_model.specs.Count.{target_scope};
ghost use Rattle.palm_model.specs.Log.{Removal};
ghost use Rattle.palm_model.specs.State.{is_over};

use palm_base::Var;
use palm_lang::Book;
use palm_model::{Con, Target, Term};

/// Whether the variable is the claimed one or in the scope of a cited constraint.
pub fn is_used(book: &Book, marks: &[bool], claimed: Var, var: Var) -> bool
    requires { length marks.now ≡ length book.now.constraints }
    ensures { (rs : List Removal) → marks.now ≡ cites_of book.now rs → result ≡ is_used (cited rs book.now) claimed var }
{
    if claimed.0 == var.0 {
        return true;
    }
    for place in 0..book.constraints() {
        let entry = book.constraint(place);
        if marks[place] && is_over(&entry.con, var) {
            return true;
        }
    }
    false
}

/// Whether the variable is in the scope of the constraint.
#[tactic(auto, using(crate::proofs::Marks::terms_have, crate::proofs::Marks::scope_has))]
fn is_over(con: &Con, var: Var) -> bool
    ensures { result ≡ is_over con.now var }
{
    match con {
        Con::CompareVar { left, right, .. } => left.0 == var.0 || right.0 == var.0,
        Con::CompareConst { left: only, .. } | Con::Within { var: only, .. } => only.0 == var.0,
        Con::Linear { terms, .. } => has_term(terms.as_slice(), var),
        Con::Table { vars, .. } | Con::Differ { vars } => has_var(vars.as_slice(), var),
        Con::Element { outcome, index, .. } => outcome.0 == var.0 || index.0 == var.0,
        Con::Count { vars, target, .. } => has_var(vars.as_slice(), var) || is_target(target, var),
    }
}

/// Whether the variable is one of these.
fn has_var(vars: &[Var], var: Var) -> bool
    ensures { result ≡ has_var vars.now var }
{
    vars.iter().any(|x| x.0 == var.0)
}

/// Whether the variable is one of the terms'.
fn has_term(terms: &[Term], var: Var) -> bool
    ensures { result ≡ has_term terms.now var }
{
    terms.iter().any(|term| term.var.0 == var.0)
}

/// Whether the variable is the target.
fn is_target(target: &Target, var: Var) -> bool
    ensures { result ≡ has_var (target_scope target.now) var }
{
    match target {
        Target::Const(_) => false,
        Target::Variable(x) => x.0 == var.0,
    }
}
