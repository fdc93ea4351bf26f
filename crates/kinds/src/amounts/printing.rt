// Spans as text.
ghost use Rattle.kinds.specs.Texts.{span_text};

use crate::amounts::Amounts;
use crate::amounts::span::Span;
use crate::printing::PrintingKind;
use pages::page::Page;

impl PrintingKind for Amounts {
    ghost text = { span_text };

    #[tactic(auto, using(pages::proofs::Adding::printing))]
    fn print(b: &Span, page: &mut Page) {
        page.put_number(b.low);
        page.put_all(b"..");
        page.put_number(b.high);
    }
}
