// The pages by blocks of one size. A block of which no page is in is passed over by one look at its count.
ghost use Rattle.std.specs.Prelude.{◌≡◌, ◌<◌, MatchOption};
ghost use Rattle.free_pages.specs.Pages.{IsLeast, IsEmpty};
ghost use Rattle.free_pages.specs.Inside.{IsFirstUsed, AreUnused};

/// How many pages are counted together.
pub(crate) const BLOCK: usize = 256;

/// The first block of which a page is in.
pub(crate) fn first_used(in_block: &[u32]) -> Option<usize>
    ensures { MatchOption result (AreUnused in_block.now) (λ block. IsFirstUsed in_block.now block) }
{
    in_block.iter().position(|&count| count > 0)
}

/// The first mark that stands.
pub(crate) fn first_mark(marks: &[bool]) -> Option<usize>
    ensures { MatchOption result (IsEmpty marks.now) (λ place. IsLeast marks.now place) }
{
    marks.iter().position(|&mark| mark)
}
