//! Reports over a whole plan.
ghost use Rattle.std.specs.Prelude.{List, Some};
ghost use Rattle.bf_farm.specs.Answering.{IsReport, IsUnfailed, IsRunOfPlan};
ghost use Rattle.bf_farm.specs.Reports.{TableFollows};
ghost use Rattle.bf_farm.specs.declared.report.Report.{Report as RunReport};
ghost use Rattle.bf_oid.specs.declared.object.Oid.{Oid};
ghost use Rattle.bf_search.specs.declared.outcomes.Outcome.{Outcome};
ghost use Rattle.bf_search.specs.Farm.{Setting};
ghost use Rattle.bf_state.specs.Session.{Session};

/// A report whose outcomes are those of a plan, and which no failed test ended, is the run on the plan,
/// however many workers tested.
pub fn reports_follow_their_plan()
    ensures { (setting : Setting) (first : Session) (names : List Oid) (plan : List Outcome)
        (report : RunReport) → IsReport setting first names report →
        TableFollows (Some plan) report.table → IsUnfailed report →
        IsRunOfPlan setting plan report }
{}
