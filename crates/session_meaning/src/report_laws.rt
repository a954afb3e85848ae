//! Laws over reports and what they have of a cut. The bodies are empty: what counts is what they ensure.

ghost use Rattle.std.specs.Prelude.{◌≡◌, List};
ghost use Rattle.session_meaning.specs.declared.event.Event.{Event};
ghost use Rattle.session_meaning.specs.Cut.{events_cut, plan_cut};
ghost use Rattle.session_meaning.specs.CutReport.{all_lines, joined, lines_of};
ghost use Rattle.session_meaning.specs.Events.{Worlds};
ghost use Rattle.session_meaning.specs.Plan.{Closed, Names, Plan};
ghost use Rattle.session_meaning.specs.SessionReport.{world_report};
ghost use Rattle.session_meaning.specs.World.{World};

/// A report is its lines, one after the other.
pub fn report_is_lines()
    ensures { (plan : Plan) (w : World) → world_report plan w ≡ joined (all_lines plan w) }
{}

/// The lines of the requests of closed functions, of their open calls and of their keys are, in their
/// order, those of the cut plan's world under the cut events.
pub fn cut_report()
    ensures { (plan : Plan) (functions keys : Names) (events : List Event) (w small : World)
        → Closed plan functions keys → Worlds plan events w
        → Worlds (plan_cut plan functions keys) (events_cut plan functions w events) small
        → all_lines (plan_cut plan functions keys) small ≡ lines_of plan functions keys w }
{}
