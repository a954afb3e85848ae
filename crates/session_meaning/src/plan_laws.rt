//! Laws over plans and session files. The bodies are empty: what counts is what they ensure.

ghost use Rattle.std.specs.Prelude.{◌≡◌, ◌<◌, ◌≤◌, ℕ, All, List, Ok, Some, length};
ghost use Rattle.faaslet_meaning.specs.declared.module.Module.{Module};
ghost use Rattle.faaslet_meaning.specs.declared.grant.Grant.{Grant};
ghost use Rattle.faaslet_meaning.specs.Asked.{IsNumbered};
ghost use Rattle.faaslet_meaning.specs.Formed.{KeysDiffer};
ghost use Rattle.faaslet_meaning.specs.Runnable.{Runnable};
ghost use Rattle.faaslet_meaning.specs.Runs.{invocation};
ghost use Rattle.faaslet_meaning.specs.Valid.{Valid};
ghost use Rattle.session_meaning.specs.CallNames.{DistinctLabels, DistinctNames, PlainLabels};
ghost use Rattle.session_meaning.specs.Draft.{Draft, empty, new_function, plan_of, with_callee, with_function, with_grant, with_key, with_module, with_request};
ghost use Rattle.session_meaning.specs.LoadPlan.{load_plan};
ghost use Rattle.session_meaning.specs.Names.{number_of};
ghost use Rattle.session_meaning.specs.Plan.{Key, Plan, Request};
ghost use Rattle.session_meaning.specs.Registry.{add_function, add_key, add_request, allow, check_budget, grant, new};
ghost use Rattle.session_meaning.specs.SessionFile.{Answer, FileFits, PlanOf, Planned};
ghost use Rattle.session_meaning.specs.SessionLimits.{request_limit};
ghost use Rattle.session_meaning.specs.WellFormed.{KeepsLimits, ModuleFits, WellFormed, WellFormedDraft, WithinBudgets, function_names, key_names};
ghost use Rattle.session_meaning.specs.WorldTold.{CallsFit};

/// What a session file gives keeps every limit and both budgets, and has no module yet.
pub fn file_gives_well_formed()
    ensures { (bytes : List ℕ) (p : Planned) → PlanOf bytes (Ok p) → FileFits p }
{}

/// A session file has one answer at most.
pub fn file_has_one_answer()
    ensures { (bytes : List ℕ) (a b : Answer Planned) → PlanOf bytes a → PlanOf bytes b → a ≡ b }
{}

/// Each list of bytes has an answer.
pub fn file_has_an_answer()
    ensures { (bytes : List ℕ) → (a : Answer Planned) × PlanOf bytes a }
{}

/// An entry with which the limits are kept is not refused, and neither is a draft within its budgets.
pub fn limits_refuse_nothing_else()
    ensures sessions { (hosts workers : ℕ) → KeepsLimits (empty hosts workers)
        → new hosts workers ≡ Ok (empty hosts workers) }
    ensures keys { (d : Draft) (k : Key) → KeepsLimits (with_key d k)
        → add_key d k.name k.size k.init ≡ Ok (with_key d k) }
    ensures functions { (d : Draft) (name : List ℕ) (quota fuel room : ℕ)
        → KeepsLimits (with_function d (new_function name quota fuel room))
        → add_function d name quota fuel room ≡ Ok (with_function d (new_function name quota fuel room)) }
    ensures grants { (d : Draft) (f : ℕ) (key : List ℕ) (g : Grant) → f < length d.functions
        → number_of key (key_names d) ≡ Some g.key → KeepsLimits (with_grant d f g)
        → grant d f key g.mode ≡ Ok (with_grant d f g) }
    ensures callees { (d : Draft) (f : ℕ) (callee : List ℕ) (c : ℕ) → f < length d.functions
        → number_of callee (function_names d) ≡ Some c → KeepsLimits (with_callee d f c)
        → allow d f callee ≡ Ok (with_callee d f c) }
    ensures requests { (d : Draft) (function : List ℕ) (r : Request)
        → number_of function (function_names d) ≡ Some r.function → KeepsLimits (with_request d r)
        → add_request d r.label function r.host r.input ≡ Ok (with_request d r) }
    ensures budgets { (d : Draft) → WithinBudgets d → check_budget d ≡ Ok d }
{}

/// A draft stays well formed where a function gets a module that a function may have.
pub fn module_keeps_well_formed()
    ensures { (d : Draft) (f : ℕ) (m : Module) → WellFormedDraft d → ModuleFits m → WellFormedDraft (with_module d f m) }
{}

/// A well-formed draft of which each function has its module is a well-formed plan.
pub fn finished_draft_is_well_formed()
    ensures { (d : Draft) (plan : Plan) → WellFormedDraft d → plan_of d ≡ Some plan → WellFormed plan }
{}

/// The plan of `load`, its module included, is well formed for as many requests as a session may have.
pub fn load_plan_is_well_formed()
    ensures { (n : ℕ) → n ≤ request_limit → WellFormed (load_plan n) }
{}

/// A well-formed plan has all that the laws on worlds, on cuts and on calls ask of plans.
pub fn well_formed_fits()
    ensures calls { (plan : Plan) → WellFormed plan → CallsFit plan }
    ensures names { (plan : Plan) → WellFormed plan → DistinctNames plan }
    ensures labels { (plan : Plan) → WellFormed plan → DistinctLabels plan × PlainLabels plan }
    ensures modules { (plan : Plan) → WellFormed plan
        → All (λ f. Valid f.function.code × Runnable f.function.code) plan.functions }
    ensures invocations { (plan : Plan) → WellFormed plan
        → All (λ f. (input : List ℕ)
        → KeysDiffer (invocation f.function input) × IsNumbered (invocation f.function input)) plan.functions }
{}
