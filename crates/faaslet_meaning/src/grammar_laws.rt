//! Laws of the binary grammar alone. The bodies are empty: what counts is what they ensure.

ghost use Rattle.std.specs.Prelude.{◌≡◌, ℕ, List};
ghost use Rattle.faaslet_meaning.specs.declared.module.Module.{Module};
ghost use Rattle.faaslet_meaning.specs.Productions.{IsDetermined};
ghost use Rattle.faaslet_meaning.specs.Numbers.{IsUnsigned, IsSigned};
ghost use Rattle.faaslet_meaning.specs.Instructions.{IsExpression};
ghost use Rattle.faaslet_meaning.specs.Grammar.{IsModule};
ghost use Rattle.faaslet_meaning.specs.Decoding.{Decoded, DecodesTo};

/// No spelling of a number begins another, and each spells one number.
pub fn one_number()
    ensures unsigned { (bits : ℕ) → IsDetermined (IsUnsigned bits) }
    ensures signed { (bits : ℕ) → IsDetermined (IsSigned bits) }
{}

/// No spelling of an expression begins another, and each spells one list of instructions.
pub fn one_expression()
    ensures { IsDetermined IsExpression }
{}

/// Bytes spell one module at most.
pub fn one_module()
    ensures { (m n : Module) (bytes : List ℕ) → IsModule m bytes → IsModule n bytes → m ≡ n }
{}

/// A file has one answer at most.
pub fn one_answer()
    ensures { (a b : Decoded) (bytes : List ℕ) → DecodesTo a bytes → DecodesTo b bytes → a ≡ b }
{}
