//! What is proved of books and of what callers know of them. The functions change nothing: their
//! contracts are the laws.
ghost use Rattle.std.specs.Prelude.{◌≡◌, ◌⊎◌};
ghost use mathlib.Core.List.{IsPrefix};
ghost use Rattle.group_history.specs.Meaning.{Meanings};
ghost use Rattle.head_word.specs.Books.{record_of};
ghost use Rattle.head_word.specs.Laws.{BookLaws};

use crate::mark::Mark;
use group_history::Means;

/// Laws of books, for mutators of any meaning: what stands under a stamp stays, each stamp is one node of
/// one draft, the record only grows, and of the records of two beginnings of one book one begins the other.
pub fn book_laws()
    ensures { (means : Meanings) → BookLaws means }
{}

/// There is one record: of two that callers know of a book, one begins the other.
pub fn one_record<M: Means>(one: &Mark<M>, other: &Mark<M>)
    requires { one.now.book ≡ other.now.book }
    ensures books { IsPrefix one.now.log other.now.log ⊎ IsPrefix other.now.log one.now.log }
    ensures records { IsPrefix (record_of one.now.log) (record_of other.now.log)
        ⊎ IsPrefix (record_of other.now.log) (record_of one.now.log) }
{
    let mut both = one.seen.again();
    both.learn(&other.seen);
}
