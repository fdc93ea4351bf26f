// Boxes of fragments as text.
ghost use Rattle.kinds.specs.Fragments.{numbers};
ghost use Rattle.kinds.specs.Texts.{fragment_text};
ghost use Rattle.pages.specs.Pages.{Prints};
ghost use Rattle.pages.specs.Spaced.{spaced};

use crate::fragments::fragment::{Fragment, NameSet};
use crate::fragments::{Fragments, NAMES};
use crate::printing::PrintingKind;
use pages::page::Page;

// Prints the numbers of the set, ascending, with single spaces.
fn put_numbers(set: NameSet, page: &mut Page)
    ensures { Prints page.old (spaced (numbers set.bits)) page.new }
{
    page.put_list((0..NAMES).filter(|k| set.has(*k)));
}

impl PrintingKind for Fragments {
    ghost text = { fragment_text };

    #[tactic(auto, using(pages::proofs::Adding::printing))]
    fn print(b: &Fragment, page: &mut Page) {
        match *b {
            Fragment::Only(x) => {
                page.put(b'=');
                page.put_number(x.number);
            }
            Fragment::Except(s) if s.bits == 0 => page.put(b'*'),
            Fragment::Except(s) => {
                page.put(b'-');
                put_numbers(s, page);
            }
        }
    }
}
