ghost use Rattle.std.specs.Prelude.{◌≡◌, ◌<◌, ◌≤◌, ◌^◌, ◌++◌, length, Ok, OnOk, OnErr, IfOk};
ghost use Rattle.bcv_base.specs.ManifestGrammar.{manifest_of};
ghost use Rattle.std.specs.Int.{w8, w32, w64, to_be_bytes};
ghost use Rattle.std.specs.List.{flat_map};
ghost use Rattle.bcv_base.specs.ManifestRules.{MeetsRules, MeetsLimits, IsShort, manifest_length};
ghost use Rattle.bcv_base.specs.ManifestText.{manifest_text, entry_text, writer_text, dead_text, id_text, counted};
ghost use Rattle.bcv_manifest.specs.Head.{head_text};

use crate::fields::MAGIC;
use bcv_base::{DbEntry, DbName, Dead, Id16, Manifest, Writer, manifest_len};
use byteorder::{BigEndian, ByteOrder};
use std::alloc::{AllocError, Global};

fn put_u32(out: &mut Vec<u8>, number: u32) -> Result<(), AllocError>
    ensures { OnOk result (out.new.items ≡ out.old.items ++ to_be_bytes w32 number) }
{
    let mut field = [0; 4];
    BigEndian::write_u32(&mut field, number);
    out.extend_from_slice(&field)
}

fn put_u64(out: &mut Vec<u8>, number: u64) -> Result<(), AllocError>
    ensures { OnOk result (out.new.items ≡ out.old.items ++ to_be_bytes w64 number) }
{
    let mut field = [0; 8];
    BigEndian::write_u64(&mut field, number);
    out.extend_from_slice(&field)
}

fn put_id(out: &mut Vec<u8>, id: &Id16) -> Result<(), AllocError>
    ensures { OnOk result (out.new.items ≡ out.old.items ++ id_text id.now) }
{
    out.extend_from_slice(&id.0)
}

fn put_writer(out: &mut Vec<u8>, writer: &Writer) -> Result<(), AllocError>
    ensures { OnOk result (out.new.items ≡ out.old.items ++ writer_text writer.now) }
{
    put_id(out, &writer.id)?;
    put_id(out, &writer.last)?;
    put_u64(out, writer.number)
}

fn put_writers(out: &mut Vec<u8>, writers: &[Writer]) -> Result<(), AllocError>
    requires { length writers.now < 2 ^ 32 }
    ensures { OnOk result (out.new.items ≡ out.old.items ++ counted writer_text writers.now) }
{
    put_u32(out, writers.len() as u32)?;
    for writer in writers {
        put_writer(out, writer)?;
    }
    Ok(())
}

fn put_ids(out: &mut Vec<u8>, ids: &[Id16]) -> Result<(), AllocError>
    ensures { OnOk result (out.new.items ≡ out.old.items ++ flat_map id_text ids.now) }
{
    for id in ids {
        put_id(out, id)?;
    }
    Ok(())
}

fn put_name(out: &mut Vec<u8>, name: &DbName) -> Result<(), AllocError>
    ensures { OnOk result (out.new.items ≡ out.old.items
        ++ (to_be_bytes w8 (length name.now) ++ name.now)) }
{
    let text = name.text();
    out.push(text.len() as u8)?;
    out.extend_from_slice(text)
}

fn put_entry(out: &mut Vec<u8>, entry: &DbEntry) -> Result<(), AllocError>
    ensures { OnOk result (out.new.items ≡ out.old.items ++ entry_text entry.now) }
{
    put_name(out, &entry.name)?;
    put_id(out, &entry.tag)?;
    put_u32(out, entry.page_size)?;
    put_u32(out, entry.pages)?;
    put_ids(out, entry.blocks.items())
}

fn put_entries(out: &mut Vec<u8>, entries: &[DbEntry]) -> Result<(), AllocError>
    requires { length entries.now < 2 ^ 32 }
    ensures { OnOk result (out.new.items ≡ out.old.items ++ counted entry_text entries.now) }
{
    put_u32(out, entries.len() as u32)?;
    for entry in entries {
        put_entry(out, entry)?;
    }
    Ok(())
}

fn put_dead(out: &mut Vec<u8>, entry: &Dead) -> Result<(), AllocError>
    ensures { OnOk result (out.new.items ≡ out.old.items ++ dead_text entry.now) }
{
    put_id(out, &entry.id)?;
    put_u64(out, entry.stamp)
}

fn put_dead_list(out: &mut Vec<u8>, dead: &[Dead]) -> Result<(), AllocError>
    requires { length dead.now < 2 ^ 32 }
    ensures { OnOk result (out.new.items ≡ out.old.items ++ counted dead_text dead.now) }
{
    put_u32(out, dead.len() as u32)?;
    for entry in dead {
        put_dead(out, entry)?;
    }
    Ok(())
}

// What stands before the lists.
fn put_head(out: &mut Vec<u8>, manifest: &Manifest) -> Result<(), AllocError>
    ensures { OnOk result (out.new.items ≡ out.old.items ++ head_text manifest.now) }
{
    out.extend_from_slice(&MAGIC)?;
    put_u64(out, manifest.number)?;
    put_u64(out, manifest.moment)?;
    put_u32(out, manifest.block)?;
    put_u64(out, manifest.retention)?;
    put_id(out, &manifest.id)
}

fn spelled(alloc: Global, manifest: &Manifest) -> Result<Vec<u8>, AllocError>
    requires { MeetsLimits manifest.now }
    ensures { IfOk result (λ v. v.items ≡ manifest_text manifest.now) }
{
    let mut out = Vec::with_capacity(alloc, manifest_len(manifest) as usize)?;
    put_head(&mut out, manifest)?;
    put_writers(&mut out, manifest.writers.items())?;
    put_entries(&mut out, manifest.dbs.items())?;
    put_dead_list(&mut out, manifest.dead.items())?;
    Ok(out)
}

/// The one spelling of a manifest. Memory is taken once.
pub fn write_manifest(alloc: Global, manifest: &Manifest) -> Result<Vec<u8>, AllocError>
    requires rules { MeetsRules manifest.now }
    requires limits { MeetsLimits manifest.now }
    requires short { IsShort manifest.now }
    ensures text { IfOk result (λ v. v.items ≡ manifest_text manifest.now) }
    ensures reads { IfOk result (λ v. manifest_of v.items ≡ Ok manifest.now) }
    ensures len { IfOk result (λ v. length v.items ≡ manifest_length manifest.now) }
{
    spelled(alloc, manifest)
}

/// Appends the one spelling of a database's entry; where memory runs out, nothing.
pub fn write_entry(alloc: Global, entry: &DbEntry, into: &mut Vec<u8>) -> Result<(), AllocError>
    ensures ok { OnOk result (into.new.items ≡ into.old.items ++ entry_text entry.now) }
    ensures err { OnErr result (into.new.items ≡ into.old.items) }
{
    let mut text = Vec::new(alloc);
    put_entry(&mut text, entry)?;
    into.extend_from_slice(&text)
}
