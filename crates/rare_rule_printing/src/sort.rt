//! Writes sorts over the parameters of a rule.
ghost use Rattle.std.specs.Prelude.{◌≡◌, ◌++◌, ◌<◌, ◌∷◌, [], codes, length, IsTrue, OnOk, OnErr};
ghost use Rattle.rare_rule.specs.ParamForms.{are_numbers, is_sort_over};
ghost use Rattle.rare_rule_printing.specs.ConstraintPrinting.{number_text};
ghost use Rattle.rare_rule_printing.specs.SortPrinting.{rule_sort_text, sort_name_text};
ghost use Rattle.rare_scope.specs.Printing.{linear_text_by};
ghost use Rattle.rare_sexpr.specs.Written.{IsCut};
ghost use Rattle.rare_term_printing.specs.OperatorTexts.{list_text};

use crate::names::ParamNames;
use rare_base::Text;
use rare_linear::Linear;
use rare_rule::Param;
use rare_scope::write_linear_over;
use rare_sexpr::write_symbol;
use rare_sort::Sort;
use std::alloc::AllocError;

// The name of a parameter.
pub fn write_name(params: &[Param], k: u32, out: &mut Text) -> Result<(), AllocError>
    requires { k < length params.now }
    ensures ok { OnOk result (out.new ≡ out.old ++ sort_name_text params.now k) }
    ensures err { OnErr result (IsCut out.old (sort_name_text params.now k) out.new) }
{
    write_symbol(out, params[k as usize].name.bytes())
}

// `(BitVec E)`
fn write_bit_vectors(params: &[Param], width: &Linear, out: &mut Text) -> Result<(), AllocError>
    requires { IsTrue (are_numbers params.now width.now.parts) }
    ensures ok { OnOk result
        (out.new ≡ out.old ++ list_text
        (codes "BitVec" ∷ linear_text_by (number_text params.now) width.now ∷ [])) }
    ensures err { OnErr result
        (IsCut out.old (list_text
        (codes "BitVec" ∷ linear_text_by (number_text params.now) width.now ∷ [])) out.new) }
{
    out.append(b"(BitVec ")?;
    write_linear_over(width, &ParamNames { params }, out)?;
    out.push(b')')
}

// A sort over the parameters of a rule.
pub fn write_sort(params: &[Param], sort: &Sort, out: &mut Text) -> Result<(), AllocError>
    requires { IsTrue (is_sort_over params.now sort.now) }
    ensures ok { OnOk result (out.new ≡ out.old ++ rule_sort_text params.now sort.now) }
    ensures err { OnErr result (IsCut out.old (rule_sort_text params.now sort.now) out.new) }
{
    match sort {
        Sort::Bool => out.append(b"Bool"),
        Sort::Int => out.append(b"Int"),
        Sort::BitVec(width) => write_bit_vectors(params, width, out),
        Sort::Array(keys, entries) => {
            out.append(b"(Array ")?;
            write_sort(params, keys.get(), out)?;
            out.push(b' ')?;
            write_sort(params, entries.get(), out)?;
            out.push(b')')
        }
        Sort::Named(k) => write_name(params, *k, out),
    }
}
