//! Laws on the locks of a bench: which one its entries on a region leave, and that a call locks in turn. The bodies are empty:
//! what counts is what they ensure.
ghost use Rattle.std.specs.Prelude.{◌≡◌, ℕ, Bool, false, List, ◌++◌, map};
ghost use Rattle.faaslet_meaning.specs.declared.grant.Channel.{Channel};
ghost use Rattle.faaslet_meaning.specs.declared.outcome.Outcome.{Outcome};
ghost use Rattle.faaslet_meaning.specs.Channels.{Operation, RegionOperation, Reply, Transcript, ask, on_region, told_by};
ghost use Rattle.faaslet_meaning.specs.CallState.{State, asks, fresh_state, over, runs};
ghost use Rattle.faaslet_meaning.specs.Configuration.{Configuration};
ghost use Rattle.faaslet_meaning.specs.Formed.{KeysDiffer};
ghost use Rattle.faaslet_meaning.specs.Fresh.{Function, fresh, makes};
ghost use Rattle.faaslet_meaning.specs.Goes.{Goes};
ghost use Rattle.faaslet_meaning.specs.History.{History, region_rules, told_to};
ghost use Rattle.faaslet_meaning.specs.Region.{Region};
ghost use Rattle.faaslet_meaning.specs.Runs.{invocation};
ghost use Rattle.faaslet_meaning.specs.Spelling.{Spells, spelled};
ghost use Rattle.faaslet_meaning.specs.Valid.{Valid};
ghost use Rattle.turn_cell.specs.declared.view.Entry.{Entry};
ghost use Rattle.region_tier.specs.Holding.{LocksInTurn, has_lock};
ghost use Rattle.told_asks.specs.Leaves.{leaves_lock};

/// What is told later leaves a lock, or none, where what was told before did.
pub fn locks_are_left_in_order()
    ensures { (start : Bool) (before after : List (Operation × Reply))
        → leaves_lock start (before ++ after) ≡ leaves_lock (leaves_lock start before) after }
{}

/// By a list of entries a maker has a lock exactly where what the list told it leaves one.
pub fn a_list_leaves_what_was_told()
    ensures { (start : Region) (maker : ℕ) (list : List Entry) (history : History RegionOperation)
        → Spells spelled (map (λ e. (e.maker, e.numbers)) list) history
        → has_lock maker list ≡ leaves_lock false (map (λ x. (on_region x.0, x.1)) (told_to region_rules maker start history)) }
{}

/// A call locks where what it was told on that channel left it no lock, and unlocks where that left it one.
pub fn a_call_locks_in_turn()
    ensures { (f : Function) (input : List ℕ) (c : Configuration) (transcript : Transcript) (s : State) (channel : Channel)
        (operation : RegionOperation)
        → Valid f.code → KeysDiffer (invocation f input) → fresh f ≡ makes c
        → Goes (invocation f input) (runs (fresh_state c)) transcript (asks s (ask channel (on_region operation)))
        → LocksInTurn operation (leaves_lock false (told_by transcript channel)) }
{}

/// What a call was told by its end leaves it no lock.
pub fn a_call_ends_without_locks()
    ensures { (f : Function) (input : List ℕ) (c : Configuration) (transcript : Transcript) (s : State) (outcome : Outcome)
        (channel : Channel) → Valid f.code → fresh f ≡ makes c
        → Goes (invocation f input) (runs (fresh_state c)) transcript (over s outcome)
        → leaves_lock false (told_by transcript channel) ≡ false }
{}
