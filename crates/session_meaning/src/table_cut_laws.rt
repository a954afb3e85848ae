//! A law over cuts of table histories, whose takes may be the next ones. The body is empty: what counts is
//! what it ensures.

ghost use Rattle.std.specs.Prelude.{IsTrue};
ghost use Rattle.faaslet_meaning.specs.History.{History};
ghost use Rattle.faaslet_meaning.specs.Table.{TableOperation};
ghost use Rattle.session_meaning.specs.HistoryCut.{CallsGranted, first_table, HistoryOfCut, part_in, requests_first};
ghost use Rattle.session_meaning.specs.Plan.{Closed, Names, Plan};

/// Where requests come first and each call submits what its function may call, the entries on calls of
/// closed functions are a history of their own, in which these calls ask and are answered as in the whole.
pub fn cut_of_history()
    ensures { (plan : Plan) (functions keys : Names) (history : History TableOperation)
        → Closed plan functions keys
        → IsTrue (requests_first history) → CallsGranted plan (first_table plan) history
        → HistoryOfCut plan (part_in plan functions keys history) history }
{}
