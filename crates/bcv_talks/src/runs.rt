//! Laws on runs with one client. Each function does nothing: its clauses are the law.
ghost use Rattle.bcv_talks.specs.RunNames.{RunNamesDiffer};
ghost use Rattle.bcv_talks.specs.SideRuns.{AloneRunsBySides};
ghost use Rattle.bcv_talks.specs.TalkGrowth.{RunsExtend};

use bcv_store::Store;

/// Shows that over a run the log only grows and no name is drawn twice, and that a run over a store that is alone goes from side to side.
pub fn runs_go_on<S: Store>(store: &S)
    ensures extend { RunsExtend S.told }
    ensures names { RunNamesDiffer S.told }
    ensures alone { AloneRunsBySides S.told }
{}
