//! Writes the constraints of a rule.
ghost use Rattle.std.specs.Prelude.{◌≡◌, ◌++◌, IsTrue, OnOk, OnErr};
ghost use Rattle.rare_rule.specs.ParamForms.{are_numbers};
ghost use Rattle.rare_rule.specs.Rules.{IsInForm};
ghost use Rattle.rare_rule_printing.specs.ConstraintPrinting.{constraint_text};
ghost use Rattle.rare_sexpr.specs.Written.{IsCut};

use crate::names::ParamNames;
use rare_base::Text;
use rare_linear::Constraint;
use rare_rule::{Param, Rule};
use rare_scope::write_linear_over;
use std::alloc::AllocError;

// Appends `(>= E 0)`.
pub fn write_constraint(
    params: &[Param],
    constraint: &Constraint,
    out: &mut Text,
) -> Result<(), AllocError>
    requires { IsTrue (are_numbers params.now constraint.now.floor.parts) }
    ensures ok { OnOk result (out.new ≡ out.old ++ constraint_text params.now constraint.now) }
    ensures err { OnErr result (IsCut out.old (constraint_text params.now constraint.now) out.new) }
{
    out.append(b"(>= ")?;
    write_linear_over(&constraint.floor, &ParamNames { params }, out)?;
    out.append(b" 0)")
}

/// Appends a constraint of a rule, `(>= E 0)`, where the size of a list or of a term whose width has no
/// name is `(bvsize x)`.
///
/// Want of memory leaves the old bytes and perhaps the front of the text.
pub fn print_constraint(
    rule: &Rule,
    constraint: &Constraint,
    out: &mut Text,
) -> Result<(), AllocError>
    requires form { IsInForm rule.now }
    requires names { IsTrue (are_numbers rule.now.params constraint.now.floor.parts) }
    ensures ok { OnOk result (out.new ≡ out.old ++ constraint_text rule.now.params constraint.now) }
    ensures err { OnErr result
        (IsCut out.old (constraint_text rule.now.params constraint.now) out.new) }
{
    write_constraint(rule.params.items(), constraint, out)
}
