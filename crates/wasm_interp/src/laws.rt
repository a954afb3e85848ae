//! Laws of what a machine stands for. The bodies are empty: what counts is what they ensure.

ghost use Rattle.std.specs.Prelude.{◌≡◌, ◌≢◌, ℕ, List};
ghost use Rattle.faaslet_meaning.specs.declared.grant.Grant.{Grant};
ghost use Rattle.faaslet_meaning.specs.declared.module.Module.{Module};
ghost use Rattle.faaslet_meaning.specs.Configuration.{Configuration, Begun, Next, touches};
ghost use Rattle.wasm_interp.specs.declared.machine.Machine.{Machine};
ghost use Rattle.wasm_interp.specs.Grants.{grants_of};
ghost use Rattle.wasm_interp.specs.StandsFor.{Agrees, StandsFor, with_memory};

use faaslet_meaning::Linear;

/// Whatever may be written, there are grants that agree with it.
pub fn grants_agree()
    ensures { (writable : ℕ) → Agrees writable (grants_of writable) }
{}

/// A machine stands for the same with other bytes in its scratch.
pub fn stands_with_scratch<M: Linear>()
    ensures { (m : Machine M) (code : Module) (grants : List Grant) (given : ℕ) (n : Next) (bytes : List ℕ)
        → StandsFor M.memory m code grants given n
        → StandsFor M.memory (record m { scratch = bytes }) code grants given n }
{}

/// So it does with other bytes in its second buffer.
pub fn stands_with_aside<M: Linear>()
    ensures { (m : Machine M) (code : Module) (grants : List Grant) (given : ℕ) (n : Next) (bytes : List ℕ)
        → StandsFor M.memory m code grants given n
        → StandsFor M.memory (record m { aside = bytes }) code grants given n }
{}

/// Away from shared pieces it stands, with another memory, for the same with that memory.
pub fn stands_with_memory<M: Linear>()
    ensures { (m : Machine M) (code : Module) (grants : List Grant) (given : ℕ) (n : Next) (w : M)
        → ((c : Configuration) (b : Begun) → n ≢ touches c b)
        → StandsFor M.memory m code grants given n
        → StandsFor M.memory (record m { memory = w }) code grants given (with_memory (M.memory w) n) }
{}
