ghost use Rattle.std.specs.Prelude.{ℕ, List};
ghost use Rattle.bcv_dirstore.specs.ObjectFile.{StoredIsFound};

/// An object that is put is found with the etag and the bytes that it was given. A law; the function does nothing.
pub fn stored_is_found(etag: u64, bytes: &[u8])
    ensures { StoredIsFound etag bytes.now }
{
    let _ = etag;
    let _ = bytes;
}
