// What stands on a page.
ghost use Rattle.std.specs.Prelude.{◌≡◌};
ghost use Rattle.std.specs.Option.{option_map};
ghost use Rattle.pages.specs.Pages.{Within};

use crate::page::Page;

impl Page {
    /// The bytes printed, at most `LIMIT`, or none where they were too many.
    pub fn text(&self) -> Option<&[u8]>
        ensures shown { option_map (λ x. x.now) result ≡ self.now }
        ensures few { Within self.now }
    {
        (!self.over).then(|| self.bytes.as_slice())
    }
}
