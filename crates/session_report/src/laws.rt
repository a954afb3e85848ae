//! A law over reports. Its body is empty: what counts is what it ensures.

ghost use Rattle.std.specs.Prelude.{◌≡◌, List};
ghost use Rattle.session_meaning.specs.Plan.{Plan};
ghost use Rattle.session_meaning.specs.SessionReport as report;
ghost use Rattle.session_meaning.specs.World.{World};
ghost use Rattle.session_report.specs.Told.{blocked_lines, AreBlocked};
ghost use Rattle.session_report.specs.declared.reported.Blocked.{Blocked};

/// The report of a world is what is printed of its records, of its blocked calls and of its global values.
pub fn report_of_world()
    ensures { (plan : Plan) (w : World) (all : List Blocked) → AreBlocked w all
        → report.report plan w.table.records (report.values w) (blocked_lines plan w.table.records all)
        ≡ report.world_report plan w }
{}
