// The bytes of a disk in memory, and the record of the calls that made them.
ghost use Rattle.std.specs.Prelude.{◌≡◌, ◌<◌, ◌≤◌, ◌+◌, ◌^◌, ◌++◌, [], ◌∷◌, length, take, drop, IfOk, IsOk, OnOk, OnErr, vec_len, vec_capacity};
ghost use Rattle.bcv_disk.specs.Crash.{put};
ghost use Rattle.bcv_disk.specs.Story.{raised};

use crate::tear::leave_image;
use bcv_base::Seq;
use std::alloc::{AllocError, Global};
use std::marker::Model;

/// A call that changed what a crash may leave.
///
/// The first number is that of the crashes just before it that found nothing to tear.
#[derive(Drop)]
pub enum Act {
    Wrote(u64, u64, Seq<u8>),
    CutTo(u64, u64),
    Synced(u64),
    Crashed(u64, u8),
}

/// The record of the calls is what contracts see.
#[derive(Drop)]
pub struct Platter {
    bytes: Vec<u8>,
    acts: Vec<Act>,
    /// What each write and cut since the last sync took away: a crash needs the bytes of that sync.
    saved: Vec<Seq<u8>>,
    /// Empty; its room is for those bytes while a crash makes its image.
    spare: Vec<u8>,
    idle: u64,
}

impl Model for Platter {
    ghost use Rattle.bcv_disk.specs.Story.{Story};

    ghost Value = { Story };

    ghost use Rattle.bcv_disk.specs.Inside.{story_of, IsKept};

    ghost view = { story_of };

    ghost invariant = { IsKept };
}

impl Platter {
    ghost use Rattle.bcv_disk.specs.Record.{content};
    ghost use Rattle.bcv_disk.specs.Story.{untouched, with_write, with_cut, with_sync, with_crash};

    /// A platter of no bytes.
    pub fn new(alloc: Global) -> Platter
        ensures { result ≡ untouched }
    {
        Platter {
            bytes: Vec::new(alloc),
            acts: Vec::new(alloc),
            saved: Vec::new(alloc),
            spare: Vec::new(alloc),
            idle: 0,
        }
    }

    /// The bytes that a read gives.
    pub fn bytes(&self) -> &[u8]
        ensures { result.now ≡ content self.now.acts }
    {
        &self.bytes
    }

    /// Takes the memory for its own part of the record, and for that of the next sync or crash.
    pub fn write(&mut self, alloc: Global, at: u64, bytes: &[u8]) -> Result<(), AllocError>
        requires from { at ≤ length (content self.old.acts) }
        requires fits { at + length bytes.now ≤ 2 ^ 32 }
        ensures ok { OnOk result (self.new ≡ with_write at bytes.now self.old) }
        ensures err { OnErr result (self.new ≡ self.old) }
    {
        let from = at as usize;
        let kept = bytes.to_vec(alloc)?;
        let over = taken(alloc, &self.bytes, from, bytes.len())?;
        self.acts.reserve(2)?;
        self.saved.reserve(1)?;
        self.spare.reserve(from + bytes.len())?;
        overwrite(&mut self.bytes, from, bytes)?;
        note(&mut self.acts, Act::Wrote(self.idle, at, Seq::of(kept)));
        note(&mut self.saved, Seq::of(over));
        self.idle = 0;
        Ok(())
    }

    /// Takes memory as `write` does.
    pub fn cut(&mut self, alloc: Global, len: u64) -> Result<(), AllocError>
        requires { len ≤ length (content self.old.acts) }
        ensures ok { OnOk result (self.new ≡ with_cut len self.old) }
        ensures err { OnErr result (self.new ≡ self.old) }
    {
        let over = taken(alloc, &self.bytes, len as usize, self.bytes.len())?;
        self.acts.reserve(2)?;
        self.saved.reserve(1)?;
        self.bytes.truncate(len as usize);
        note(&mut self.acts, Act::CutTo(self.idle, len));
        note(&mut self.saved, Seq::of(over));
        self.idle = 0;
        Ok(())
    }

    /// After it a crash leaves just what a read gives.
    pub fn sync(&mut self)
        ensures { self.new ≡ with_sync self.old }
    {
        if !self.saved.is_empty() {
            note(&mut self.acts, Act::Synced(self.idle));
            self.saved.clear();
            self.idle = 0;
        }
    }

    /// Leaves the image of that number, in the memory that the writes have taken.
    pub fn crash(&mut self, image: u8)
        ensures { self.new ≡ with_crash image self.old }
    {
        if self.saved.is_empty() {
            raise(&mut self.idle);
            return;
        }
        leave_image(
            &mut self.bytes,
            &self.acts,
            &mut self.saved,
            image,
            &mut self.spare,
        );
        self.saved.clear();
        note(&mut self.acts, Act::Crashed(self.idle, image));
        self.idle = 0;
    }
}

/// Counts one more, up to the type's last number.
pub fn raise(count: &mut u64)
    ensures { count.new ≡ raised count.old }
{
    if *count < u64::MAX {
        *count += 1;
    }
}

// A copy of at most so many bytes from a place on.
fn taken(alloc: Global, bytes: &[u8], from: usize, most: usize) -> Result<Vec<u8>, AllocError>
    requires { from ≤ length bytes.now }
    ensures { IfOk result (λ v. v.items ≡ take most (drop from bytes.now)) }
{
    let end = bytes.len().min(from.saturating_add(most));
    bytes[from..end].to_vec(alloc)
}

// Adds to a list that has room for it.
fn note<T>(list: &mut Vec<T>, item: T)
    requires { vec_len list.old < vec_capacity list.old }
    ensures items { list.new.items ≡ list.old.items ++ item ∷ [] }
    ensures len { vec_len list.new ≡ vec_len list.old + 1 }
    ensures capacity { vec_capacity list.old ≤ vec_capacity list.new }
{
    match list.push(item) {
        Ok(()) => {}
        Err(_) => unreachable!(),
    }
}

/// Writes over what is there, and past the end.
pub fn overwrite(content: &mut Vec<u8>, at: usize, bytes: &[u8]) -> Result<(), AllocError>
    requires { at ≤ length content.old.items }
    ensures ok { OnOk result (content.new.items ≡ put content.old.items at bytes.now) }
    ensures err { OnErr result (content.new.items ≡ content.old.items) }
    ensures capacity { vec_capacity content.old ≤ vec_capacity content.new }
    ensures room { OnOk result (at + length bytes.now ≤ vec_capacity content.new) }
    ensures succeeds { at + length bytes.now ≤ vec_capacity content.old → IsOk result }
{
    let shared = bytes.len().min(content.len() - at);
    content.extend_from_slice(&bytes[shared..])?;
    content[at..at + shared].copy_from_slice(&bytes[..shared]);
    Ok(())
}
