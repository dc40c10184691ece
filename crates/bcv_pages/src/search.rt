ghost use Rattle.std.specs.Prelude.{◌≡◌, ◌*◌, ◌≤◌, true, not, map, MatchResult, option_copied};
ghost use Rattle.bcv_base.specs.Image.{written, is_base};
ghost use Rattle.bcv_base.specs.Views.{origin, view_size, has_local};
ghost use Rattle.bcv_model.specs.Commits.{writes_of};
ghost use Rattle.bcv_pages.specs.Found.{shown};
ghost use Rattle.bcv_pages.specs.Placed.{IsAscending, IsAt, IsGap, all_ascend};

use bcv_base::Seq;
use bcv_model::Commit;

/// What a view has at a page: bytes that a commit of the view wrote, zeros where the page was added by growth and not
/// written since, or the base's page.
#[derive(Clone, Copy, Debug, PartialEq, Eq)]
pub enum PageAt<'a> {
    Local(&'a [u8]),
    Zeros,
    Base,
}

// Where a page stands among pages that ascend by number, or where it would go.
pub(crate) fn place(pages: &[(u32, Seq<u8>)], page: u32) -> Result<usize, usize>
    requires { IsAscending pages.now }
    ensures { MatchResult result (λ i. IsAt pages.now page i) (λ i. IsGap pages.now page i) }
{
    pages.binary_search_by_key(&page, |written| written.0)
}

// The bytes that are written under a number.
pub(crate) fn written_bytes(pages: &[(u32, Seq<u8>)], page: u32) -> Option<&[u8]>
    requires { IsAscending pages.now }
    ensures { option_copied result ≡ written pages.now page }
{
    match place(pages, page) {
        Ok(at) => Some(pages[at].1.items()),
        Err(_) => None,
    }
}

// The size of a view, in pages.
pub(crate) fn size_of(commits: &[Commit], base_pages: u32) -> u32
    ensures { result ≡ view_size base_pages (map writes_of commits.now) }
{
    match commits.split_last() {
        Some((commit, _)) => commit.size,
        None => base_pages,
    }
}
