//! Byte ranges of a database file, as an open transaction reads it.
ghost use Rattle.std.specs.Prelude.{◌≡◌, ◌≢◌, ◌≤◌, ◌<◌, ◌^◌, ◌++◌, [], Some, None, IfOk, IfSome, option_map, length};
ghost use Rattle.bcv_slots.specs.Numbered.{item_at};
ghost use Rattle.bcv_transaction.specs.Open.{txn_at};
ghost use Rattle.bcv_base.specs.Drawn.{NamesShown};
ghost use Rattle.bcv_base.specs.Moments.{ClockShown};
ghost use Rattle.bcv_client.specs.InForm.{InForm, IsClient};
ghost use Rattle.bcv_client.specs.RangeAsks.{piece_bytes};
ghost use Rattle.bcv_client.specs.RangeParts.{FillsUp, IsThere, RangeEnds};
ghost use Rattle.bcv_client.specs.RangeReads.{PageReads, PieceReads, PiecesTried, RangeReads, StepReads, span_of};
ghost use Rattle.bcv_client.specs.Transactions.{opened_as};
ghost use Rattle.bcv_client.specs.declared.job.Access.TheVariants.{ToRead};
ghost use Rattle.bcv_client.specs.declared.job.Job.TheVariants.{Fetch};

use crate::client::Client;
use crate::job::Access;
use bcv_disk::Disk;
use bcv_model::Reply;
use bcv_store::Store;
use bcv_vfs::{Piece, Span};
use std::alloc::{AllocError, Global};

/// How a read of a range of bytes ended.
#[derive(Drop)]
pub enum ReadAt {
    /// The whole range is there.
    Full,
    /// The file ends before the range does: so many bytes are there, and zeros stand after them.
    Short(u32),
    /// The transaction is not open, or a page did not come. Nothing is in the buffer.
    Refused(Reply),
}

impl<D: Disk> Client<D> {
    /// Reads `len` bytes, at most 16 MiB, of an open transaction's file into a buffer, from the byte `off` on. What was in the
    /// buffer goes. Each page that the range touches is read as by `read`, and a step is made where that starts a task.
    #[tactic(none)]
    pub fn read_at<S: Store>(
        &mut self,
        alloc: Global,
        txn: u8,
        off: u64,
        len: u32,
        into: &mut Vec<u8>,
        store: &mut S,
    ) -> ReadAt
        requires client { IsClient self.old }
        requires most { len ≤ 2 ^ 24 }
        ensures client { IsClient self.new }
        ensures reached { S.reaches store.old store.new }
        ensures reads { RangeReads D.told D.shown S.told (S.shown store.old) (S.shown store.new)
            self.old self.new txn off len into.new.items result }
    {
        into.clear();
        match self.span_of(txn, off, len) {
            Some(span) => {
                span.pieces_are_the_range();
                let tried = self.read_pieces(alloc, txn, &span, into, store);
                ends(&span, tried, into)
            }
            None => ReadAt::Refused(Reply::NoTxn),
        }
    }

    // The range of an open transaction's file.
    #[tactic(none)]
    fn span_of(&self, txn: u8, off: u64, len: u32) -> Option<Span>
        requires form { InForm self.now }
        ensures span { result ≡ option_map (λ x. span_of x off len) (opened_as txn self.now.txns) }
        ensures size { IfSome result (λ span. 0 < span.page_size) }
    {
        let _ = self.txns.is_full();
        match self.opened(txn) {
            Some((_, page_size, pages)) => Some(Span {
                page_size,
                pages,
                off,
                len,
            }),
            None => None,
        }
    }

    // Reads the pieces of a range from the left, and adds their bytes.
    #[tactic(none)]
    fn read_pieces<S: Store>(
        &mut self,
        alloc: Global,
        txn: u8,
        span: &Span,
        into: &mut Vec<u8>,
        store: &mut S,
    ) -> Result<(), Reply>
        requires client { IsClient self.old }
        requires is_open { txn_at txn self.old.txns.txns ≢ None }
        requires size { 0 < span.now.page_size }
        requires empty { into.old.items ≡ [] }
        ensures client { IsClient self.new }
        ensures reached { S.reaches store.old store.new }
        ensures tried { PiecesTried D.told D.shown S.told (S.shown store.old) (S.shown store.new)
            self.old self.new txn span.now into.new.items result }
    {
        span.pieces_are_the_range();
        for i in 0..span.pages {
            let Some(piece) = span.piece(i) else {
                return Ok(());
            };
            match self.read_piece(alloc, txn, &piece, into, store) {
                Ok(()) => (),
                Err(reply) => return Err(reply),
            }
        }
        Ok(())
    }

    // Reads the page of a piece, and adds the bytes that the piece names.
    #[tactic(none)]
    fn read_piece<S: Store>(
        &mut self,
        alloc: Global,
        txn: u8,
        piece: &Piece,
        into: &mut Vec<u8>,
        store: &mut S,
    ) -> Result<(), Reply>
        requires client { IsClient self.old }
        ensures client { IsClient self.new }
        ensures reached { S.reaches store.old store.new }
        ensures reads { PieceReads D.told D.shown S.told (S.shown store.old) (S.shown store.new)
            self.old self.new txn piece.now into.old.items into.new.items result }
    {
        match self.read_page(alloc, txn, piece.page, store) {
            Reply::Page(bytes) => match add_piece(into, piece, bytes.items()) {
                Ok(()) => Ok(()),
                Err(_) => Err(Reply::NoMemory),
            },
            reply => Err(reply),
        }
    }

    // Reads a page, and makes the step of the task that this may start.
    #[tactic(none)]
    fn read_page<S: Store>(&mut self, alloc: Global, txn: u8, page: u32, store: &mut S) -> Reply
        requires client { IsClient self.old }
        ensures client { IsClient self.new }
        ensures reached { S.reaches store.old store.new }
        ensures reads { PageReads D.told D.shown S.told (S.shown store.old) (S.shown store.new)
            self.old self.new txn page result }
    {
        let _ = self.txns.is_full();
        match self.read(alloc, txn, page) {
            Reply::Task { task, left: _ } => self.read_step(alloc, task, txn, page, store),
            reply => reply,
        }
    }

    // Makes the step of a task that reads a page.
    #[tactic(none)]
    fn read_step<S: Store>(
        &mut self,
        alloc: Global,
        task: u8,
        txn: u8,
        page: u32,
        store: &mut S,
    ) -> Reply
        requires client { IsClient self.old }
        requires task { item_at task self.old.tasks.items ≡ Some (Fetch ToRead txn page) }
        ensures client { IsClient self.new }
        ensures reached { S.reaches store.old store.new }
        ensures reads { StepReads D.told D.shown S.told (S.shown store.old) (S.shown store.new)
            self.old self.new task result }
    {
        let _ = self.txns.is_full();
        let Ok(job) = self.take_task(task as u64) else {
            unreachable!()
        };
        drop(job);
        self.fetch(alloc, store, Access::ToRead, txn, page)
    }
}

// How the read of a range ends, once its pieces were read or one was refused.
fn ends(span: &Span, tried: Result<(), Reply>, into: &mut Vec<u8>) -> ReadAt
    ensures { RangeEnds span.now tried into.old.items into.new.items result }
{
    let filled = match tried {
        Ok(()) => fill_up(into, span.len),
        Err(reply) => Err(reply),
    };
    match filled {
        Ok(()) => there(span),
        Err(reply) => {
            into.clear();
            ReadAt::Refused(reply)
        }
    }
}

// Cuts a buffer to this length, or fills it up with zeros.
fn fill_up(into: &mut Vec<u8>, len: u32) -> Result<(), Reply>
    ensures { FillsUp len into.old.items into.new.items result }
{
    match into.resize(len as usize, 0) {
        Ok(()) => Ok(()),
        Err(_) => Err(Reply::NoMemory),
    }
}

// Whether the range is there, or how much of it.
fn there(span: &Span) -> ReadAt
    ensures { IsThere span.now result }
{
    match span.short() {
        Some(there) => ReadAt::Short(there),
        None => ReadAt::Full,
    }
}

// Adds the bytes that a piece names in its page.
fn add_piece(into: &mut Vec<u8>, piece: &Piece, page: &[u8]) -> Result<(), AllocError>
    ensures { IfOk result (λ done. into.new.items ≡ into.old.items ++ piece_bytes piece.now page.now) }
{
    let end = page.len().min(piece.start as usize + piece.len as usize);
    let start = end.min(piece.start as usize);
    into.extend_from_slice(&page[start..end])
}
