// What a checked catalogue tells: its slots and its sheets.
ghost use Rattle.std.specs.Prelude.{◌≡◌};
ghost use Rattle.catalogue.specs.Content.{Content};
ghost use Rattle.catalogue.specs.Verdict.{content};
ghost use Rattle.catalogue.specs.Views.{seen, options_said, count_said, sheet_said};
ghost use Rattle.catalogue.specs.Listing.{Lists};

use crate::checked::Catalogue;
use crate::make::Make;
use crate::sheet_scan::SheetScan;
use crate::view::View;

impl<'a> Catalogue<'a> {
    // How many options a slot has, if the catalogue has the slot.
    pub fn options(&self, slot: usize) -> Option<u8>
        ensures { result ≡ options_said (content self.now.bytes.now) slot }
    {
        if slot < usize::from(self.counts.slots) {
            Some(self.bytes[2 * slot + 1])
        } else {
            None
        }
    }

    // Its sheets in the file's order, which begin behind its slots.
    fn sheets(&self) -> SheetScan<'a>
        ensures { Lists (content self.now.bytes.now) result }
    {
        SheetScan {
            bytes: self.bytes,
            at: 2 * usize::from(self.counts.slots),
        }
    }

    // How many sheets of a make there are.
    pub fn sheet_count(&self, make: Make) -> usize
        ensures { result ≡ count_said (content self.now.bytes.now) make }
    {
        self.sheets().filter(|(of, _)| *of == make).count()
    }

    // Sheet i of a make, counted from 0 in the file's order, if there is one.
    pub fn sheet(&self, make: Make, i: usize) -> Option<View<'a>>
        ensures { seen result ≡ sheet_said (content self.now.bytes.now) make i }
    {
        let mut sheets = self.sheets().filter(|(of, _)| *of == make);
        sheets.nth(i).map(|(_, view)| view)
    }
}
