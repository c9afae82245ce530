//! Writes the bounds of a rule.
ghost use Rattle.std.specs.Prelude.{◌≡◌, ◌++◌, IsTrue, OnOk, OnErr};
ghost use Rattle.rare_rule.specs.ParamForms.{are_bounds};
ghost use Rattle.rare_rule_printing.specs.inner.RulePieces.{bounds_text};
ghost use Rattle.rare_sexpr.specs.Written.{IsCut};

use crate::constraint::write_constraint;
use rare_base::Text;
use rare_linear::Constraint;
use rare_rule::Param;
use std::alloc::AllocError;

// ` :where (C ..)`, where there are some.
pub fn write_bounds(
    params: &[Param],
    bounds: &[Constraint],
    out: &mut Text,
) -> Result<(), AllocError>
    requires { IsTrue (are_bounds params.now bounds.now) }
    ensures ok { OnOk result (out.new ≡ out.old ++ bounds_text params.now bounds.now) }
    ensures err { OnErr result (IsCut out.old (bounds_text params.now bounds.now) out.new) }
{
    let [first, rest @ ..] = bounds else {
        return Ok(());
    };
    out.append(b" :where (")?;
    write_constraint(params, first, out)?;
    for bound in rest {
        out.push(b' ')?;
        write_constraint(params, bound, out)?;
    }
    out.push(b')')
}
