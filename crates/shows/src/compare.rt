// Shows a binder's sheets every small box, and counts where it differs from plain enumeration.
use crate::reckon::Sheet;
use binder::binders::Binder;
use boxes::OptionBox;
use catalogue::checked::Catalogue;
use catalogue::make::Make;
use std::fmt;

// The boxes of three slots with three, three and two options: a bit for each option.
const BOXES: u16 = 256;

// What was compared, and what differed.
#[derive(Clone, Copy, Default)]
pub struct Tally {
    pub sheets: u32,
    pub showings: u32,
    pub differences: u32,
}

impl Tally {
    fn note(&mut self, good: bool) {
        self.showings = self.showings.wrapping_add(1);
        if !good {
            self.differences = self.differences.wrapping_add(1);
        }
    }
}

// Three numbers in words of their own; what prints the counts of a catalogue has other words.
impl fmt::Display for Tally {
    fn fmt<W: fmt::Write>(&self, f: &mut fmt::Formatter<W>) -> fmt::Result {
        let sheets = self.sheets;
        let showings = self.showings;
        let differences = self.differences;
        write!(
            f,
            "{sheets} sheets, {showings} showings, {differences} differences"
        )
    }
}

// The box of a number: its bits are the options 0 to 2 of the slots 0 and 1, and 0 and 1 of slot 2.
fn box_of(number: u16) -> OptionBox {
    let mut slate = OptionBox::none();
    for bit in 0..8u8 {
        if (number >> bit) & 1 == 1 {
            slate.open(usize::from(bit / 3), bit % 3);
        }
    }
    slate
}

// Shows one sheet one box, then the box that is left with one option less, and takes both back.
fn one_box<B: Binder>(binder: &mut B, at: usize, sheet: &Sheet, number: u16, tally: &mut Tally) {
    let mut slate = box_of(number);
    let marked = binder.mark().is_ok();
    let first = sheet.reckoned(&slate);
    let shown = binder.show(at, &mut slate).is_ok();
    tally.note(marked && shown && slate.cells == first.cells);
    slate.close((number % 3) as usize, (number / 3 % 3) as u8);
    let second = sheet.reckoned(&slate);
    let shown = binder.show(at, &mut slate).is_ok();
    let undone = binder.undo().is_ok();
    tally.note(undone && shown && slate.cells == second.cells);
}

// Shows all sheets of a make every box. In the binder they begin at `from`.
pub fn every_box<B: Binder>(
    binder: &mut B,
    from: usize,
    catalogue: &Catalogue,
    make: Make,
) -> Tally {
    let mut tally = Tally::default();
    for i in 0..catalogue.sheet_count(make) {
        if let Some(view) = catalogue.sheet(make, i) {
            tally.sheets = tally.sheets.wrapping_add(1);
            let sheet = Sheet { make, view };
            for number in 0..BOXES {
                one_box(binder, from.wrapping_add(i), &sheet, number, &mut tally);
            }
        }
    }
    tally
}
