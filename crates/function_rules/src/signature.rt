//! Types of functions that take i32 alone and have one result at most.

ghost use Rattle.std.specs.Prelude.{◌≡◌, ◌↔◌, IsTrue, All, option_copied, replicate, slice_get};
ghost use Rattle.faaslet_meaning.specs.declared.instr.ValType.TheVariants.{I32};
ghost use Rattle.faaslet_meaning.specs.Tree.{types_of};
ghost use Rattle.function_rules.specs.Signatures.{func_type};

use faaslet_meaning::{FuncType, ValType};

/// How many parameters there are, which are all i32, and the result.
#[derive(Clone, Copy, Debug, PartialEq, Eq)]
pub struct Signature {
    pub params: usize,
    pub result: Option<ValType>,
}

fn are_all_i32(types: &[ValType]) -> bool
    ensures { IsTrue result ↔ All (λ t. t ≡ I32) types.now }
{
    types.iter().all(|t| *t == ValType::I32)
}

#[tactic(auto, using(crate::proofs::Types::all_same, crate::proofs::Types::same_all))]
fn has_params(params: &[ValType], count: usize) -> bool
    ensures { IsTrue result ↔ (params.now ≡ replicate count I32) }
{
    params.len() == count && are_all_i32(params)
}

fn has_result(types: &[ValType], result_type: Option<ValType>) -> bool
    ensures { IsTrue result ↔ (types.now ≡ types_of result_type) }
{
    match types {
        [] => result_type.is_none(),
        [t] => result_type == Some(*t),
        _ => false,
    }
}

/// Whether this is the type.
#[tactic(auto, using(crate::proofs::Types::type_is))]
pub fn has_type(t: &FuncType, signature: Signature) -> bool
    ensures { IsTrue result ↔ (t.now ≡ func_type signature) }
{
    has_params(t.params.as_slice(), signature.params)
        && has_result(t.results.as_slice(), signature.result)
}

/// The type of this number.
pub fn func_type(types: &[FuncType], t: u32) -> Option<&FuncType>
    ensures { option_copied result ≡ slice_get types.now t }
{
    types.get(t as usize)
}
