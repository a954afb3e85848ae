//! Laws for those who call `serve_state`: which question an ask is, and what a maker was told by its lists of entries. The
//! bodies are empty: what counts is what they ensure.
ghost use Rattle.std.specs.Prelude.{◌≡◌, ℕ, List, ◌++◌, ◌∷◌, [], Some};
ghost use mathlib.Core.Option.{some};
ghost use lib.ListN.{get_elem?};
ghost use Rattle.faaslet_meaning.specs.declared.ask.Ask.TheVariants as an_ask;
ghost use Rattle.faaslet_meaning.specs.declared.ask.AskOp.{AskOp};
ghost use Rattle.faaslet_meaning.specs.declared.ask.Move.{Move};
ghost use Rattle.faaslet_meaning.specs.declared.grant.Channel.{Channel};
ghost use Rattle.faaslet_meaning.specs.Asks.{question_of_ask, size_of_key};
ghost use Rattle.faaslet_meaning.specs.CallState.{Invocation};
ghost use Rattle.faaslet_meaning.specs.Channels.{Operation, RegionOperation, Reply, on_region};
ghost use Rattle.shared_region.specs.Entries.{MakesShared};
ghost use Rattle.shared_region.specs.Shared.{Shared};
ghost use Rattle.turn_cell.specs.Cell.{pass_list, pass_number, start_of};
ghost use Rattle.turn_cell.specs.History.{Extends, Stands};
ghost use Rattle.turn_cell.specs.declared.cell.Turns.{Turns};
ghost use Rattle.turn_cell.specs.declared.view.Entry.{Entry};
ghost use Rattle.region_tier.specs.Answered.{Answered};
ghost use Rattle.region_tier.specs.Tiers.{RegionPass};
ghost use Rattle.state_service.specs.Asked.{question_of};
ghost use Rattle.state_service.specs.Heard.{Heard};
ghost use Rattle.state_service.specs.May.{Cells, Slots};
ghost use Rattle.state_service.specs.Served.{Made};

/// The question that is served is the one that the call asks, where its grant has the size with which the key began.
pub fn questions_are_asked()
    ensures region { (j : Invocation) (size : ℕ) (channel : Channel) (o : AskOp) (scratch : List ℕ)
        → question_of_ask j (an_ask.Region channel o) scratch ≡ question_of size (an_ask.Region channel o) scratch }
    ensures moves { (j : Invocation) (size key : ℕ) (kind : Move) (scratch : List ℕ) → size_of_key j.program.grants key ≡ Some size
        → question_of_ask j (an_ask.Move key kind) scratch ≡ question_of size (an_ask.Move key kind) scratch }
{}

/// What was made on a key is what its maker was told there, behind what it had been told.
pub fn what_is_made_is_heard()
    ensures { (cells : Cells) (old new : Slots) (key : ℕ) (made told : List (Operation × Reply)) (t : Turns Shared) (p : RegionPass)
        → Made cells old new key made → get_elem? cells key ≡ some t → get_elem? old key ≡ some (Some p)
        → Heard (start_of t).region (pass_number p) (pass_list p) told
        → (q : RegionPass) × (get_elem? new key ≡ some (Some q)) × (pass_number q ≡ pass_number p)
        × Heard (start_of t).region (pass_number p) (pass_list q) (told ++ made) }
{}

/// By no entries a maker was told nothing.
pub fn nothing_is_heard()
    ensures { (start : Shared) (maker : ℕ) → Heard start.region maker [] [] }
{}

/// A list of entries tells a maker one thing.
pub fn heard_once()
    ensures { (start : Shared) (maker : ℕ) (list : List Entry) (a b : List (Operation × Reply))
        → Heard start.region maker list a → Heard start.region maker list b → a ≡ b }
{}

/// Where a maker made one operation more, it was told one reply more.
pub fn entries_are_heard()
    ensures { (start : Shared) (maker : ℕ) (operation : RegionOperation) (old new : List Entry) (answer : Reply) (told : List (Operation × Reply))
        → Answered start maker operation old new answer → Heard start.region maker old told
        → Heard start.region maker new (told ++ (on_region operation, answer) ∷ []) }
{}

/// Entries of others that stand behind a maker's list tell it nothing.
pub fn heard_stays()
    ensures { (start end : Shared) (maker : ℕ) (old new : List Entry) (told : List (Operation × Reply))
        → Extends maker old new → Stands MakesShared start new end → Heard start.region maker old told
        → Heard start.region maker new told }
{}
