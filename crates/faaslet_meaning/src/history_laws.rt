//! Laws over regions, the call table and their histories. The bodies are empty: what counts is what
//! they ensure.

ghost use Rattle.std.specs.Prelude.{◌≡◌, ℕ, List, ◌++◌, ◌==◌, not, IsTrue};
ghost use Rattle.std.specs.List.{list_all};
ghost use Rattle.faaslet_meaning.specs.Channels.{RegionOperation, Reply, Question, entries};
ghost use Rattle.faaslet_meaning.specs.History.{History, Legal, left, replies, told_to, region_rules, table_rules};
ghost use Rattle.faaslet_meaning.specs.Region.{Region, is_half};
ghost use Rattle.faaslet_meaning.specs.Sections.{HasSections};
ghost use Rattle.faaslet_meaning.specs.Spelling.{spelled, spelled_on_table, OperationFits};
ghost use Rattle.faaslet_meaning.specs.Table.{Table, TableOperation};

/// A prefix of a legal history is legal.
pub fn prefix_is_legal()
    ensures region { (s : Region) (xs ys : History RegionOperation)
        → Legal region_rules s (xs ++ ys) → Legal region_rules s xs }
    ensures table { (s : Table) (xs ys : History TableOperation)
        → Legal table_rules s (xs ++ ys) → Legal table_rules s xs }
{}

/// The replies of a prefix stand in front of those of the whole.
pub fn prefix_has_its_replies()
    ensures region { (s : Region) (xs ys : History RegionOperation)
        → replies region_rules s (xs ++ ys)
        ≡ replies region_rules s xs ++ replies region_rules (left region_rules s xs) ys }
    ensures table { (s : Table) (xs ys : History TableOperation)
        → replies table_rules s (xs ++ ys)
        ≡ replies table_rules s xs ++ replies table_rules (left table_rules s xs) ys }
{}

/// Where a prefix holds all entries of a maker, the maker was told the same by the prefix and by the whole.
pub fn others_leave_what_was_told()
    ensures region { (maker : ℕ) (s : Region) (xs ys : History RegionOperation)
        → IsTrue (list_all (λ e. not (e.0 == maker)) ys)
        → told_to region_rules maker s (xs ++ ys) ≡ told_to region_rules maker s xs }
    ensures table { (maker : ℕ) (s : Table) (xs ys : History TableOperation)
        → IsTrue (list_all (λ e. not (e.0 == maker)) ys)
        → told_to table_rules maker s (xs ++ ys) ≡ told_to table_rules maker s xs }
{}

/// Between a maker's LockWrite and its Unlock no other maker's entry stands, but an Unlock by a maker that
/// holds nothing.
pub fn legal_has_sections()
    ensures { (s : Region) (history : History RegionOperation)
        → Legal region_rules s history → HasSections s history }
{}

/// Each operation of a question on a region is of one of its halves, which are known before its reply.
pub fn entries_are_halves()
    ensures { (q : Question) (r : Reply) → IsTrue (list_all (is_half q) (entries q r)) }
{}

/// No two operations have one spelling, where the result of a call that is finished is an i32.
pub fn one_spelling()
    ensures region { (a b : RegionOperation) → spelled a ≡ spelled b → a ≡ b }
    ensures table { (a b : TableOperation) → OperationFits a → OperationFits b
        → spelled_on_table a ≡ spelled_on_table b → a ≡ b }
{}
