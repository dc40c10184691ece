ghost use Rattle.std.specs.Prelude.{◌≡◌, ℕ, List, [], length, take, nat_lt, Option, Some, None, if◌then◌else◌, OnOk, OnErr, IfOk};
ghost use Rattle.std.specs.Option.{option_copied};
ghost use Rattle.std.specs.BTreeMap.{IsOrdered};
ghost use Rattle.bcv_base.specs.declared.object.ObjName.{ObjName};
ghost use Rattle.bcv_base.specs.Log.{name_eq};
ghost use Rattle.bcv_store.specs.Asked.{list_most};
ghost use Rattle.bcv_memstore.specs.Index.{id_cmp, place_of, ids_past};

use bcv_base::{Id16, ObjName};
use std::alloc::{AllocError, Global};
use std::collections::BTreeMap;
use std::ops::Bound;

/// How many ids a list gives at most.
const MOST: usize = 1024;

/// For the name of each object that is there, the place in the log of the put that made it.
#[derive(Drop)]
pub struct Places {
    manifest: Option<usize>,
    blocks: BTreeMap<Id16, usize>,
}

impl Places {
    /// No name has a place.
    pub fn new(alloc: Global) -> Places
        ensures { (name : ObjName) → place_of result name ≡ None }
    {
        Places {
            manifest: None,
            blocks: BTreeMap::new(alloc),
        }
    }

    /// The place of a name.
    pub fn get(&self, name: &ObjName) -> Option<usize>
        ensures { result ≡ place_of self.now name.now }
    {
        match name {
            ObjName::Manifest => self.manifest,
            ObjName::Block(id) => self.blocks.get(id).copied(),
        }
    }

    /// Gives a name this place.
    pub fn set(&mut self, name: &ObjName, place: usize) -> Result<(), AllocError>
        ensures set { OnOk result ((other : ObjName) → place_of self.new other
            ≡ (if name_eq name.now other then Some place else place_of self.old other)) }
        ensures kept { OnErr result ((other : ObjName)
            → place_of self.new other ≡ place_of self.old other) }
    {
        match name {
            ObjName::Manifest => {
                self.manifest = Some(place);
            }
            ObjName::Block(id) => {
                self.blocks.insert(*id, place)?;
            }
        }
        Ok(())
    }

    /// Takes the place of a name away.
    pub fn remove(&mut self, name: &ObjName)
        ensures { (other : ObjName) → place_of self.new other
            ≡ (if name_eq name.now other then None else place_of self.old other) }
    {
        match name {
            ObjName::Manifest => {
                self.manifest = None;
            }
            ObjName::Block(id) => {
                let _ = self.blocks.remove(id);
            }
        }
    }

    /// Leaves in `into`, which is empty, the first of the ids of the blocks above `after`, and says whether there are
    /// further ones.
    pub fn ids_above(&self, after: Option<&Id16>, into: &mut Vec<Id16>) -> Result<bool, AllocError>
        requires { into.old.items ≡ [] }
        ensures listed { IfOk result (λ more. (more ≡ nat_lt list_most
            (length (ids_past (option_copied after.entry) self.now)))
            × (into.new.items ≡ take list_most (ids_past (option_copied after.entry) self.now))) }
        ensures ordered { IsOrdered id_cmp self.now.blocks }
    {
        let start = match after {
            Some(id) => Bound::Excluded(*id),
            None => Bound::Unbounded,
        };
        for (id, _) in self.blocks.range((start, Bound::Unbounded)) {
            if into.len() == MOST {
                return Ok(true);
            }
            into.push(*id)?;
        }
        Ok(false)
    }
}
