// Telling that a record is refused.
ghost use Rattle.std.specs.Prelude.{◌≡◌};
ghost use Rattle.drawing.specs.Refused.{refused_text};
ghost use Rattle.pages.specs.Pages.{Prints};

use crate::fault::Fault;
use pages::page::Page;

// `X,layer,number,record,field`
#[tactic(auto, using(pages::proofs::Adding::printing))]
pub(crate) fn tell(page: &mut Page, at: u32, fault: Fault)
    ensures { let text = refused_text record { at = at; fault = fault } in
        Prints page.old text page.new }
{
    page.put_all(b"X,");
    page.put(fault.layer().into());
    page.put_fields(&[fault.number(), at, fault.field()]);
    page.end_record();
}
