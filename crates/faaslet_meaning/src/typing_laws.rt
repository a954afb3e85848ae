//! Laws of typing over the definitions alone. The bodies are empty: what counts is what they ensure.

ghost use Rattle.std.specs.Prelude.{◌≡◌, ◌≢◌, ℕ, List, [], Some, slice_get, Option, Result, Ok, is_some};
ghost use Rattle.faaslet_meaning.specs.declared.grant.Grant.{Grant};
ghost use Rattle.faaslet_meaning.specs.declared.module.FuncType.{FuncType};
ghost use Rattle.faaslet_meaning.specs.declared.module.Module.{Module};
ghost use Rattle.faaslet_meaning.specs.declared.outcome.Trap.{Trap};
ghost use Rattle.faaslet_meaning.specs.CallState.{State, Progress, runs, lost, fresh_state};
ghost use Rattle.faaslet_meaning.specs.Configuration.{Program, Configuration, Begun, defined, stuck};
ghost use Rattle.faaslet_meaning.specs.ControlRules.{entered};
ghost use Rattle.faaslet_meaning.specs.Fine.{
  Ground,
  ground_of,
  Keeps,
  Waits,
  ConfigOk,
  ProgramOk,
  BegunOk,
  count,
  NextOk,
};
ghost use Rattle.faaslet_meaning.specs.Fresh.{Function, makes, nothing, program, fresh};
ghost use Rattle.faaslet_meaning.specs.MemoryRules.{resumed};
ghost use Rattle.faaslet_meaning.specs.Program.{program_of};
ghost use Rattle.faaslet_meaning.specs.Reach.{Reaches};
ghost use Rattle.faaslet_meaning.specs.Runnable.{HostImports, Runnable};
ghost use Rattle.faaslet_meaning.specs.Runs.{invocation};
ghost use Rattle.faaslet_meaning.specs.Step.{step, finished};
ghost use Rattle.faaslet_meaning.specs.Tree.{Tree};
ghost use Rattle.faaslet_meaning.specs.Valid.{Valid};

/// About to run a function that has a body and no parameters, a configuration is typed.
pub fn entry_is_typed()
    ensures { (p : Program) (g : Ground) (k locals : ℕ) (t : FuncType) (body : Tree)
        (c : Configuration)
        → ProgramOk p g → slice_get g.functions k ≡ Some t
        → slice_get p.functions k ≡ Some (defined t locals body) → t.params ≡ []
        → Keeps g c
        → ConfigOk g (record c { frame = entered t locals body []; callers = [] }) }
{}

/// A step of a typed configuration is not stuck, and what it leads to is typed.
pub fn step_is_typed()
    ensures { (p : Program) (g : Ground) (c : Configuration)
        → ProgramOk p g → ConfigOk g c → NextOk g (step p c) }
{}

/// So it is after the reply to a shared piece.
pub fn resumed_is_typed()
    ensures { (g : Ground) (c : Configuration) (b : Begun) (bytes : List ℕ)
        → BegunOk g c b → NextOk g (resumed c b bytes) }
{}

/// So it is after a host call that has a result where one is awaited.
pub fn finished_is_typed()
    ensures { (g : Ground) (c : Configuration) (r : Result (Option ℕ) Trap)
        → Keeps g c → ((o : Option ℕ) → r ≡ Ok o → Waits g c (count (is_some o)))
        → NextOk g (finished c r) }
{}

/// The program of a valid module that imports host calls alone is typed.
pub fn valid_program_is_typed()
    ensures { (m : Module) (grants : List Grant)
        → Valid m → HostImports m → ProgramOk (program_of m grants) (ground_of m) }
{}

/// A valid module that a function may have comes to a state about to run `main`, or is broken.
pub fn valid_is_made()
    ensures { (f : Function) → Valid f.code → Runnable f.code → fresh f ≢ nothing }
{}

/// Wherever a call of such a function comes to, by its steps and by replies that fit, the next step
/// of its machine lacks no operand, no label and no type.
pub fn never_stuck()
    ensures { (f : Function) (input : List ℕ) (c : Configuration) (s : State)
        → Valid f.code → Runnable f.code → fresh f ≡ makes c
        → Reaches (invocation f input) (runs (fresh_state c)) (runs s)
        → step (program f) s.config ≢ stuck }
{}

/// Nor is the call lost: it runs, it waits for a reply, or it is over.
pub fn never_lost()
    ensures { (f : Function) (input : List ℕ) (c : Configuration) (x : Progress)
        → Valid f.code → Runnable f.code → fresh f ≡ makes c
        → Reaches (invocation f input) (runs (fresh_state c)) x → x ≢ lost }
{}
