//! How the session's list of the requests becomes the front of the whole list. The bodies are empty: what counts is what they ensure.
ghost use Rattle.std.specs.Prelude.{◌≡◌, ◌≢◌, ◌+◌, ◌<◌, ◌++◌, ◌∷◌, [], All, List, ℕ};
ghost use Rattle.session_meaning.specs.Plan.{Plan};
ghost use Rattle.turn_cell.specs.History.{Extends, MakersBelow, entry, own};
ghost use Rattle.turn_cell.specs.declared.view.Entry.{Entry};
ghost use Rattle.call_table.specs.Makers.{session};
ghost use Rattle.session_ends.specs.Opened.{first_session, request_entries};

/// With each entry that the session makes, it has made that one more.
pub fn the_session_enters_one_more()
    ensures { (maker : ℕ) (numbers : List ℕ) (old list : List Entry) → Extends maker old list
        → own maker (list ++ entry maker numbers ∷ []) ≡ own maker old ++ entry maker numbers ∷ [] }
{}

/// Where no other maker has an entry in a list yet, and those of the session are its requests, the list is that of the requests.
pub fn the_requests_are_alone()
    ensures { (plan : Plan) (list : List Entry) → MakersBelow (session (first_session plan) + 1) list
        → ((maker : ℕ) → maker < session (first_session plan) → All (λ e. e.maker ≢ maker) list)
        → own (session (first_session plan)) list ≡ request_entries plan → list ≡ request_entries plan }
{}
