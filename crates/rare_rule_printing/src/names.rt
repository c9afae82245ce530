//! How the numbers of parameters are written in linear expressions.
ghost use Rattle.std.specs.Prelude.{◌≡◌, Some};
ghost use Rattle.rare_rule.specs.Params as params;
ghost use Rattle.rare_rule_printing.specs.ConstraintPrinting as printing;

use rare_rule::{Param, ParamKind};
use rare_scope::{Piece, WrittenNames};

/// The names of a rule's linear expressions, which are numbers of its parameters.
#[derive(Clone, Copy)]
pub struct ParamNames<'a> {
    pub params: &'a [Param],
}

// Whether the kind is that of a list.
pub fn is_list(kind: &ParamKind) -> bool
    ensures { result ≡ params.is_list_kind (Some kind.now) }
{
    matches!(kind, ParamKind::List(_) | ParamKind::WideList)
}

// Whether its number is that of a size.
fn is_size(param: &Param) -> bool
    ensures { result ≡ printing.is_size param.now }
{
    param.fresh || is_list(&param.kind)
}

impl<'a> WrittenNames for ParamNames<'a> {
    ghost use Rattle.std.specs.Prelude.{length};
    ghost use Rattle.rare_rule_printing.specs.ConstraintPrinting.{number_text};

    ghost count = { λ names. length names.params.now };

    ghost text = { λ names. number_text names.params.now };

    fn piece(&self, name: u32) -> Piece {
        let param = &self.params[name as usize];
        if is_size(param) {
            Piece::Size(param.name.bytes())
        } else {
            Piece::Symbol(param.name.bytes())
        }
    }
}
