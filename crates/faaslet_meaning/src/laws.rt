//! Laws over the definitions alone. The bodies are empty: what counts is what they ensure.

ghost use Rattle.std.specs.Prelude.{◌≡◌, ℕ, List};
ghost use Rattle.faaslet_meaning.specs.Words.{Command, CommandOf};

/// Words are one command at most.
pub fn one_command()
    ensures { (words : List (List ℕ)) (c d : Command)
        → CommandOf c words → CommandOf d words → c ≡ d }
{}
