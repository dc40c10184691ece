//! Laws on the talks with a client. Each function does nothing: its clauses are the law.
ghost use Rattle.bcv_talks.specs.TalkAlone.{NamesNewAlone, TalkAloneIsRun};
ghost use Rattle.bcv_talks.specs.TalkEnds.{TalksEnd};
ghost use Rattle.bcv_talks.specs.TalkFits.{TalksLeaveFit, ToldNamesAgree};
ghost use Rattle.bcv_talks.specs.TalkGrowth.{HonestAlone, HonestInEach};
ghost use Rattle.bcv_talks.specs.TalkJoins.{CallIsTalk, TalkAndCall, TalksJoin};
ghost use Rattle.bcv_talks.specs.TalkRuns.{TalksAreRuns};
ghost use Rattle.bcv_talks.specs.TalkStarts.{BackBegins, NewBegins};
ghost use Rattle.bcv_talks.specs.TalkTotals.{TalksCountFaults, TalksDraw, TalksKeepClient};

use bcv_client::Client;
use bcv_disk::Disk;
use bcv_store::Store;

/// Shows that a client which has just come up stands over its log, so that a talk with it may begin.
pub fn talks_begin<D: Disk>(client: &Client<D>)
    ensures back { BackBegins D.shown client.now }
    ensures new { NewBegins D.shown client.now }
{}

/// Shows that one call is a talk, and that talks one after the other are a talk.
pub fn talks_join<D: Disk, S: Store>(client: &Client<D>, store: &S)
    ensures join { TalksJoin D.told D.shown S.told client.now }
    ensures call { CallIsTalk D.told D.shown S.told client.now }
    ensures more { TalkAndCall D.told D.shown S.told client.now }
{}

/// Shows what a talk leaves of its client, whatever the store and the disk, that a fault of the disk is answered only where its count
/// rose, and that the names after the talk are those of before and the drawn ones.
pub fn talks_keep_client<D: Disk, S: Store>(client: &Client<D>, store: &S)
    ensures same { TalksKeepClient D.told D.shown S.told client.now }
    ensures faults { TalksCountFaults D.told D.shown S.told client.now }
    ensures draw { TalksDraw D.told D.shown S.told client.now }
{}

/// Shows that a talk with a client that stands over the log is a run of the machine, that the client stands after it, and that it
/// leaves its disk as that of a client which is down.
pub fn talks_are_runs<D: Disk, S: Store>(client: &Client<D>, store: &S)
    ensures runs { TalksAreRuns D.told D.shown S.told client.now }
    ensures ends { TalksEnd D.told D.shown S.told client.now }
{}

/// Shows that over a store that nobody else writes a talk is a run from side to side, where the names that it draws differ and are
/// new as it begins.
pub fn talks_are_runs_alone<D: Disk, S: Store>(client: &Client<D>, store: &S)
    ensures names { NamesNewAlone D.told D.shown S.told client.now }
    ensures runs { TalkAloneIsRun D.told D.shown S.told client.now }
{}

/// Shows that others who appended lawful entries alone over a whole talk did so in each of its calls.
pub fn talks_are_honest<D: Disk, S: Store>(client: &Client<D>, store: &S)
    ensures each { HonestInEach D.told D.shown S.told client.now }
    ensures alone { HonestAlone D.told D.shown S.told client.now }
{}

/// Shows that what a crash may leave of a client's disk fits the log after a talk, where it did before it.
pub fn talks_leave_fit<D: Disk, S: Store>(client: &Client<D>, store: &S)
    ensures fit { TalksLeaveFit D.told D.shown S.told client.now }
    ensures names { ToldNamesAgree D.told D.shown S.told client.now }
{}
