//! Whether a client may be asked so.
ghost use Rattle.std.specs.Prelude.{◌≡◌, ◌==◌, true, length};
ghost use Rattle.std.specs.List.{list_all};
ghost use Rattle.bcv_client.specs.AskCalls.{AskInForm, are_pages_of};

use crate::client::Client;
use bcv_base::{Seq, is_block_size, is_page_size};
use bcv_disk::Disk;
use bcv_model::Ask;

impl<D: Disk> Client<D> {
    /// Whether an ask may be made: the block size of a create and the pages of a new database are of the limits, and fewer than
    /// 2^63 commits were given before a commit. Every ask of a script's line is.
    pub fn may_ask(&self, ask: &Ask) -> bool
        ensures fits { result ≡ true → AskInForm self.now.taken ask.now }
        ensures only { AskInForm self.now.taken ask.now → result ≡ true }
    {
        match ask {
            Ask::Create { block, .. } => is_block_size(*block),
            Ask::NewDb {
                page_size,
                pages,
                ..
            } => are_pages(*page_size, pages.items()),
            Ask::Commit { .. } => self.taken < 1 << 63,
            _ => true,
        }
    }
}

// Whether these are the pages of a new database: each of this size, which is of the limits, and fewer than 2^31.
fn are_pages(page_size: u32, pages: &[Seq<u8>]) -> bool
    ensures { result ≡ are_pages_of page_size pages.now }
{
    is_page_size(1 << 24, page_size) && pages.len() < 1 << 31 && are_sized(page_size, pages)
}

// Whether each of these pages has this size.
fn are_sized(size: u32, pages: &[Seq<u8>]) -> bool
    ensures { result ≡ list_all (λ p. length p == size) pages.now }
{
    pages.iter().all(|page| is_sized(size, page))
}

// Whether a page has this size.
fn is_sized(size: u32, page: &Seq<u8>) -> bool
    ensures { result ≡ (length page.now == size) }
{
    page.items().len() == size as usize
}
