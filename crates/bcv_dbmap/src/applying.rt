//! What a plan makes of a manifest.

ghost use Rattle.std.specs.Prelude.{◌≡◌, IfOk, None};
ghost use Rattle.bcv_base.specs.ManifestRules.{MeetsRules, MeetsLimits};
ghost use Rattle.bcv_dbmap.specs.Applied.{applied, FitsPlan};
ghost use Rattle.bcv_dbmap.specs.Checked.{checked};

use crate::databases::databases_after;
use crate::dead::dead_after;
use crate::plan::EditPlan;
use crate::writers::with_line;
use bcv_base::{Id16, Manifest, Seq, Writer};
use std::alloc::{AllocError, Global};

/// The manifest that a plan which passes `check` makes of another one, under the publication's id, by a writer, at a
/// moment in the clock's seconds. Its moment is the greater of both.
///
/// It copies what the plan leaves as it is, and takes memory for about twice the manifest.
pub fn apply(
    alloc: Global,
    m: &Manifest,
    plan: &EditPlan,
    id: Id16,
    writer: Id16,
    moment: u64,
) -> Result<Manifest, AllocError>
    requires rules { MeetsRules m.now }
    requires limits { MeetsLimits m.now }
    requires passes { checked m.now plan.now writer ≡ None }
    requires fits { FitsPlan m.now.block plan.now }
    ensures { IfOk result (λ r. r ≡ applied m.now plan.now id writer moment) }
{
    let number = m.number + 1;
    let moment = m.moment.max(moment);
    let line = Writer {
        id: writer,
        last: id,
        number,
    };
    let writers = with_line(alloc, line, m.writers.items())?;
    let dbs = databases_after(alloc, plan, id, m.dbs.items())?;
    let dead = dead_after(alloc, plan, moment, &dbs, m)?;
    Ok(Manifest {
        number,
        moment,
        block: m.block,
        retention: m.retention,
        id,
        writers: Seq::of(writers),
        dbs: Seq::of(dbs),
        dead: Seq::of(dead),
    })
}
