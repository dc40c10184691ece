//! Which dead blocks the rule releases: the first of them, and whether there are more.
ghost use Rattle.std.specs.Prelude.{◌≡◌, ◌≤◌, Bool, false, not, ◌&&◌, [], length, vec_len, vec_capacity};
ghost use Rattle.bcv_base.specs.declared.manifest.Dead.{Dead};
ghost use Rattle.bcv_base.specs.Ids.{has_id};
ghost use Rattle.bcv_dbmap.specs.Deletions.{most_cleaned};
ghost use Rattle.bcv_keeprule.specs.Retention.{IsKeepRule};
ghost use Rattle.bcv_cleanup.specs.Released.{IsTestOf, has_more};
ghost use Rattle.bcv_cleanup.specs.Picks.{PicksFirst};

use bcv_base::{Dead, Id16};
use bcv_keeprule::KeepRule;

/// The dead blocks that a cleanup takes at most.
pub(crate) const MOST_CLEANED: usize = 64;

/// Appends the ids of the first entries that the rule releases at a moment, until there are as many as may be taken.
/// Answers how many entries it went past.
pub(crate) fn take_released<F: Fn(u64, u64, u64) -> bool>(
    dead: &[Dead],
    retention: u64,
    moment: u64,
    rule: &KeepRule<F>,
    ids: &mut Vec<Id16>,
) -> usize
    requires rule { IsKeepRule (F.pre rule.now.rule) (F.post rule.now.rule) }
    requires empty { ids.old.items ≡ [] }
    requires room { most_cleaned ≤ vec_capacity ids.old }
    ensures picks { PicksFirst (F.post rule.now.rule) moment retention dead.now result
        ids.new.items }
{
    for place in 0..dead.len() {
        if ids.len() == MOST_CLEANED {
            return place;
        }
        let entry = dead[place];
        if !rule.releases(entry.stamp, moment, retention) {
            continue;
        }
        match ids.push(entry.id) {
            Ok(()) => {}
            Err(_) => unreachable!(),
        }
    }
    dead.len()
}

/// Whether the rule releases one of these entries at a moment, besides those of the ids.
pub(crate) fn releases_more<F: Fn(u64, u64, u64) -> bool>(
    dead: &[Dead],
    retention: u64,
    moment: u64,
    rule: &KeepRule<F>,
    ids: &[Id16],
) -> bool
    requires rule { IsKeepRule (F.pre rule.now.rule) (F.post rule.now.rule) }
    ensures more { (released : Dead → Bool)
        → IsTestOf (F.post rule.now.rule) moment retention released →
        result ≡ has_more released ids.now dead.now }
    ensures none { dead.now ≡ [] → result ≡ false }
{
    for entry in dead {
        if is_further(entry, retention, moment, rule, ids) {
            return true;
        }
    }
    false
}

// Whether the rule releases the entry, and it is not one of the ids.
fn is_further<F: Fn(u64, u64, u64) -> bool>(
    entry: &Dead,
    retention: u64,
    moment: u64,
    rule: &KeepRule<F>,
    ids: &[Id16],
) -> bool
    requires rule { IsKeepRule (F.pre rule.now.rule) (F.post rule.now.rule) }
    ensures { (released : Dead → Bool) → IsTestOf (F.post rule.now.rule) moment retention released →
        result ≡ (released entry.now && not (has_id entry.now.id ids.now)) }
{
    if !rule.releases(entry.stamp, moment, retention) {
        return false;
    }
    !is_among(ids, &entry.id)
}

// Whether the id is one of these.
fn is_among(ids: &[Id16], id: &Id16) -> bool
    ensures { result ≡ has_id id.now ids.now }
{
    ids.iter().any(|taken| taken.same_as(id))
}
