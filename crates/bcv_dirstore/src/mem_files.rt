ghost use Rattle.std.specs.Prelude.{◌≡◌, ◌≢◌, ℕ, List, [], Option, Some, None, if◌then◌else◌, OnOk, OnErr, MatchOption};
ghost use Rattle.bcv_base.specs.declared.object.ObjName.{ObjName};
ghost use Rattle.bcv_base.specs.Log.{name_eq};
ghost use Rattle.bcv_dirstore.specs.FolderCalls.{AreBlocks};
ghost use Rattle.bcv_dirstore.specs.MemFiles.{file_of};

use bcv_base::{Id16, ObjName, Seq};
use std::alloc::{AllocError, Global};
use std::collections::BTreeMap;

/// The bytes of each object's file, in memory.
#[derive(Drop)]
pub struct MemFiles {
    manifest: Option<Seq<u8>>,
    blocks: BTreeMap<Id16, Seq<u8>>,
}

impl MemFiles {
    /// No file.
    pub fn new(alloc: Global) -> MemFiles
        ensures { (name : ObjName) → file_of result name ≡ None }
    {
        MemFiles {
            manifest: None,
            blocks: BTreeMap::new(alloc),
        }
    }

    /// The bytes of a file, where it is there.
    pub fn get(&self, name: &ObjName) -> Option<&[u8]>
        ensures { MatchOption result (file_of self.now name.now ≡ None)
            (λ bytes. file_of self.now name.now ≡ Some bytes.now) }
    {
        let found = match name {
            ObjName::Manifest => self.manifest.as_ref(),
            ObjName::Block(id) => self.blocks.get(id),
        };
        match found {
            Some(bytes) => Some(bytes.items()),
            None => None,
        }
    }

    /// Gives a file these bytes.
    pub fn set(&mut self, name: &ObjName, bytes: Seq<u8>) -> Result<(), AllocError>
        ensures set { OnOk result ((other : ObjName) → file_of self.new other
            ≡ (if name_eq name.now other then Some bytes else file_of self.old other)) }
        ensures same { OnErr result (file_of self.new ≡ file_of self.old) }
    {
        match name {
            ObjName::Manifest => {
                self.manifest = Some(bytes);
            }
            ObjName::Block(id) => {
                self.blocks.insert(*id, bytes)?;
            }
        }
        Ok(())
    }

    /// Takes a file away.
    pub fn remove(&mut self, name: &ObjName)
        ensures { (other : ObjName) → file_of self.new other
            ≡ (if name_eq name.now other then None else file_of self.old other) }
    {
        match name {
            ObjName::Manifest => {
                self.manifest = None;
            }
            ObjName::Block(id) => {
                let _ = self.blocks.remove(id);
            }
        }
    }

    /// Adds to `into`, which is empty, the ids of the blocks that have a file.
    pub fn ids(&self, into: &mut Vec<Id16>) -> Result<(), AllocError>
        requires { into.old.items ≡ [] }
        ensures { OnOk result (AreBlocks (file_of self.now) into.new.items) }
    {
        for (id, _) in self.blocks.iter() {
            into.push(*id)?;
        }
        Ok(())
    }
}
