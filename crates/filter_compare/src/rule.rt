//! The rule of the values that stand in a relation to a shifted one.
ghost use Rattle.filter_compare.specs.Comparison.{IsRuleOf};
ghost use Rattle.palm_model.specs.Comparison.{IsOffset};

use palm_base::Var;
use palm_filter::{Rule, Shift};
use palm_model::Op;

/// The rule for the declared values of the variable that stand in the relation to the value plus the number.
pub(crate) fn rule_of(var: Var, op: Op, by: i32) -> Rule
    requires { IsOffset by }
    ensures { IsRuleOf var op by result }
{
    match op {
        Op::Eq => Rule::At(Shift { var, by }),
        Op::Ne => Rule::Other(Shift { var, by }),
        Op::Lt => Rule::Below(Shift { var, by: by - 1 }),
        Op::Le => Rule::Below(Shift { var, by }),
        Op::Gt => Rule::Above(Shift { var, by: by + 1 }),
        Op::Ge => Rule::Above(Shift { var, by }),
    }
}
