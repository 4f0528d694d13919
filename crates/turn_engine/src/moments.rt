// Moments: the later of two, and the greatest of entries.
ghost use Rattle.std.specs.Prelude.{◌≡◌, max};
ghost use Rattle.run_meaning.specs.Runs.{greatest_moment};
ghost use Rattle.site_posts.specs.Books.{histories_of};

use checkable_core::Checkable;
use site_base::Moment;

/// The later of two moments.
pub fn later_of(left: Moment, right: Moment) -> Moment
    ensures { result ≡ max left right }
{
    if left.secs() < right.secs() {
        right
    } else {
        left
    }
}

/// The greatest moment of any entry of these checkables; 0 if there is none.
pub(crate) fn greatest_moment_of(books: &[Checkable]) -> Moment
    ensures { result ≡ greatest_moment (histories_of books.now) }
{
    let mut greatest = Moment::of(0).unwrap();
    for book in books {
        greatest = later_of(greatest, book.last_moment());
    }
    greatest
}
