//! Page sets at their places.
ghost use Rattle.std.specs.Prelude.{◌≡◌, ◌<◌, ◌≤◌, ◌++◌, ◌∷◌, [], ℕ, true, None, Some, IfOk, IfSome, OnOk, is_ok, length, if◌then◌else◌};
ghost use Rattle.bcv_base.specs.Views.{is_commit};
ghost use Rattle.bcv_model.specs.Commits.{writes_of};
ghost use Rattle.bcv_pages.specs.Held.{KeepsView, with_room, with_commit, without_upto};
ghost use Rattle.bcv_databases.specs.Catalog.{set_at};
ghost use Rattle.bcv_databases.specs.Changes.{HasRoom};
ghost use Rattle.bcv_databases.specs.Slots.{changed, with_set};

use bcv_model::Commit;
use bcv_pages::PageSet;
use std::alloc::AllocError;

/// Makes room for a commit in the set of a place.
pub(crate) fn reserve_in(
    sets: &mut Vec<Option<PageSet>>,
    place: usize,
    commit: &Commit,
) -> Result<(), AllocError>
    requires inside { place < length sets.old.items }
    requires fits { IfSome (set_at sets.old.items place)
        (λ h. is_commit h.page_size (writes_of commit.now) ≡ true) }
    ensures { sets.new.items
        ≡ (if is_ok result then changed (with_room (writes_of commit.now)) place sets.old.items else sets.old.items) }
{
    let Some(mut set) = sets[place].take() else {
        return Ok(());
    };
    let reserved = reserve(&mut set, commit);
    sets[place] = Some(set);
    reserved
}

/// Makes room for a commit, where its number is below 2^64.
pub(crate) fn reserve(set: &mut PageSet, commit: &Commit) -> Result<(), AllocError>
    requires { is_commit set.old.page_size (writes_of commit.now) ≡ true }
    ensures { set.new ≡ (if is_ok result then with_room (writes_of commit.now) set.old
        else set.old) }
{
    if set.last() >= u64::MAX {
        return Err(AllocError);
    }
    set.reserve(commit)
}

/// Adds the commit for which there is room to the set of a place.
pub(crate) fn add_in(sets: &mut Vec<Option<PageSet>>, place: usize, commit: Commit)
    requires inside { place < length sets.old.items }
    requires room { IfSome (set_at sets.old.items place) (HasRoom commit) }
    ensures { sets.new.items ≡ changed (with_commit (writes_of commit)) place sets.old.items }
{
    let Some(mut set) = sets[place].take() else {
        return;
    };
    set.add(commit);
    sets[place] = Some(set);
}

/// Forgets the commits of a set up to a number.
pub(crate) fn forget_in(sets: &mut Vec<Option<PageSet>>, place: usize, upto: u64)
    requires { place < length sets.old.items }
    ensures sets { sets.new.items ≡ changed (without_upto upto) place sets.old.items }
    ensures views { IfSome (set_at sets.old.items place)
        (λ h. (from to : ℕ) → upto ≤ from → KeepsView h (without_upto upto h) from to) }
{
    let Some(mut set) = sets[place].take() else {
        return;
    };
    set.forget(upto);
    sets[place] = Some(set);
}

/// Drops the set of a place.
pub(crate) fn drop_in(sets: &mut Vec<Option<PageSet>>, place: usize)
    requires { place < length sets.old.items }
    ensures { sets.new.items ≡ with_set None place sets.old.items }
{
    let _ = sets[place].take();
}

/// A place without a set, at the end where there is none before.
pub(crate) fn free_place(sets: &mut Vec<Option<PageSet>>) -> Result<usize, AllocError>
    ensures same { (place : ℕ) → set_at sets.new.items place ≡ set_at sets.old.items place }
    ensures inside { IfOk result (λ place. place < length sets.new.items) }
    ensures free { IfOk result (λ place. set_at sets.new.items place ≡ None) }
{
    for place in 0..sets.len() {
        if sets[place].is_none() {
            return Ok(place);
        }
    }
    let place = sets.len();
    sets.push(None)?;
    Ok(place)
}
