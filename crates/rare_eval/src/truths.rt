//! The operators of Core on two truth values.
ghost use Rattle.std.specs.Prelude.{◌≡◌, ℤ, true, List, [], ◌∷◌, Some};
ghost use Rattle.std.specs.Option.{option_map};
ghost use Rattle.rare_meaning.specs.Operators.{truth};
ghost use Rattle.rare_eval.specs.Evaluation.{operator_item};
ghost use Rattle.rare_eval.specs.inner.Groups.{is_on_truths};

use rare_sort::Head;

/// The value of an operator on two truth values.
pub(crate) fn on_truths(head: Head, a: bool, b: bool) -> Option<bool>
    ensures { is_on_truths head ≡ true → (ns : List ℤ) →
        option_map truth result ≡ Some (operator_item head ns (truth a ∷ truth b ∷ [])) }
{
    match head {
        Head::And => Some(a && b),
        Head::Or => Some(a || b),
        Head::Xor => Some(a != b),
        _ => None,
    }
}
