//! Edits of a manifest, and what keeps a store's log sound.
//!
//! It stands on `bcv_base`, on its definitions of manifests, logs and versions, and knows no bytes and no store. [`check`]
//! answers the first reason why an edit cannot be published over a manifest, [`apply`] the manifest that it makes, and
//! [`first`] that of a new container: each is exactly its definition in `specs/`. The other functions do nothing: the clause
//! of each is a law, of edits or of logs that grow by lawful entries, for the proofs above to cite. Definitions know whole
//! images, versions and histories; the code knows ids and sharing.
#![tactic(auto)]

mod applying;
mod begin;
mod block_laws;
mod checking;
mod counting;
mod databases;
mod dead;
mod fault;
mod ids;
mod laws;
mod listing;
mod manifest_laws;
mod marks;
mod plan;
mod sizes;
mod writers;

pub use applying::apply;
pub use begin::first;
pub use block_laws::{
    block_is_first_put, cleaned_is_dead, dead_is_deletable, first_is_lawful, fresh_name_stays,
    fresh_put_is_own, own_block_after_put, own_block_stays, sweep_leaves_others,
    unput_has_no_object, unput_is_fresh,
};
pub use checking::check;
pub use fault::EditFault;
pub use laws::{
    a_life_is_sound, applied_appends_edit, applied_meets_limits, applied_meets_rules,
    deleted_is_outlived, empty_is_sound, fills_itself, first_creates, first_meets_rules,
    full_is_many, gone_is_outlived, lawful_keeps_sound, others_keep_sound, others_leave_mine,
    published_is_lawful, versions_stay,
};
pub use listing::listed;
pub use manifest_laws::{
    applied_is_last_own, few_writers, first_is_last_own, images_stay, kept_is_published,
    kept_is_still_or_behind, kept_stays, last_own_is_published, last_own_stays, line_is_last_own,
    none_is_last_own, object_is_kept, published_is_up_to, published_is_version,
};
pub use plan::EditPlan;
