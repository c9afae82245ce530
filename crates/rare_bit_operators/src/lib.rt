//! Laws of single operators on bit vectors of any width. No function here computes anything: its contract
//! says that the laws of `specs/OperatorLaws.antt` hold.
#![tactic(auto)]

ghost use Rattle.rare_bit_operators.specs.OperatorLaws.{AndLaws, NotTwice, OrLaws, ProductLaws, SumLaws, XorLaws};

/// Single operators at every width: associativity, commutativity, and what they make of 0, of 1, of
/// all ones, of one operand twice and of a complement.
pub fn operator_law()
    ensures and { AndLaws }
    ensures or { OrLaws }
    ensures xor { XorLaws }
    ensures not_twice { NotTwice }
    ensures sum { SumLaws }
    ensures product { ProductLaws }
{}
