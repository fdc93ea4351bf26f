// Kinds whose boxes have a text.
ghost use Rattle.std.specs.Prelude.{ℕ, List};
ghost use Rattle.pages.specs.Pages.{Prints, Within};

use crate::kind::Kind;
use pages::page::Page;

/// A kind that can print its boxes.
// On a page, and so no `Display`: see `put_number` there.
pub trait PrintingKind: Kind {
    ghost text: { Self.Box → List ℕ };

    /// Prints the box, and nothing else, on the page.
    fn print(b: &Self::Box, page: &mut Page)
        ensures { Prints page.old (text b.now) page.new };

    /// As `print`, and says that the page holds no more than a page may. No kind has to show that, since it holds of
    /// every page.
    final fn print_within(b: &Self::Box, page: &mut Page)
        ensures prints { Prints page.old (text b.now) page.new }
        ensures few { Within page.new }
    {
        Self::print(b, page);
        // For the proof alone, which learns here that the bytes are few: where none is added, `print` does not say so.
        let _ = page.text();
    }
}
