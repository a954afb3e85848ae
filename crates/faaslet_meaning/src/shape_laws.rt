//! Laws over the definitions of expressions and of memory. The bodies are empty: what counts is what
//! they ensure.

ghost use Rattle.std.specs.Prelude.{◌≡◌, ℕ, List, IsTrue};
ghost use Rattle.faaslet_meaning.specs.declared.instr.Instr.{Instr};
ghost use Rattle.faaslet_meaning.specs.Memory.{Memory, lies_in, pieces};
ghost use Rattle.faaslet_meaning.specs.Parse.{tree_of};
ghost use Rattle.faaslet_meaning.specs.Tiles.{Tiles};
ghost use Rattle.faaslet_meaning.specs.Tree.{Tree, IsWritten};

/// A list is read as the tree that it spells, so it spells one at most.
pub fn one_tree()
    ensures read { (code : List Instr) (tree : Tree) → IsWritten code tree → tree_of code ≡ tree }
    ensures one { (code : List Instr) (a b : Tree)
        → IsWritten code a → IsWritten code b → a ≡ b }
{}

/// The pieces of a range that lies in memory tile it.
pub fn pieces_tile()
    ensures { (m : Memory) (at n : ℕ) → IsTrue (lies_in m at n) → Tiles at n (pieces m at n) }
{}
