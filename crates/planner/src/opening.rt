// Opens a planner.
ghost use Rattle.std.specs.Prelude.{◌≡◌, [], length, take, Decides};
ghost use Rattle.planner.specs.Opening.{slots_in, posed, Below, AllBelow, Started};
ghost use Rattle.settle.specs.Reach.{masks_of, Covers};
ghost use Rattle.planner.specs.States.{After};

use crate::state::{Planner, Slots};
use binder::binders::Binder;
use binder::clear::undo_all;
use boxes::OptionBox;
use boxes::slots::all_slots;
use catalogue::checked::Catalogue;
use settle::reach::Reach;
use settle::settle;
use std::array;

// The slots of a catalogue.
fn slots_of(catalogue: &Catalogue) -> Slots
    ensures { take result.count result.sizes ≡ slots_in catalogue.now.bytes.now }
{
    Slots {
        sizes: array::from_fn(|slot| catalogue.options(slot).unwrap_or(0)),
        count: usize::from(catalogue.counts.slots),
    }
}

// A binder and the slots go side by side through the functions here, since a planner is what holds both: a struct of
// them would be made for the opening alone, and taken apart again.

// Whether a sheet names slots below `slots` alone.
fn sheet_below<B: Binder>(binder: &B, sheet: usize, slots: usize) -> bool
    ensures { Decides result (Below (B.Binder.meaning binder.now) sheet slots (length ((B.Binder.meaning binder.now).scope sheet))) }
{
    let Ok(arity) = binder.arity(sheet) else {
        return true;
    };
    (0..arity).all(|position| {
        binder
            .slot_at(sheet, position)
            .is_ok_and(|slot| slot < slots)
    })
}

// Whether every sheet names slots below `slots` alone.
fn all_below<B: Binder>(binder: &B, slots: usize) -> bool
    ensures { Decides result (AllBelow (B.Binder.meaning binder.now) slots (B.Binder.meaning binder.now).count) }
{
    (0..binder.sheets()).all(|sheet| sheet_below(binder, sheet, slots))
}

// The first box: all that the sheets leave of every option of the slots; nothing where a sheet names a slot
// beyond the last.
fn first_box<B: Binder>(binder: &mut B, reach: &Reach, slots: &Slots) -> OptionBox
    requires { Covers (B.Binder.meaning binder.old).count (B.Binder.meaning binder.old).scope (masks_of reach.now) }
    ensures { Started (B.Binder.meaning binder.old) (B.Binder.meaning binder.new) (take slots.now.count slots.now.sizes) result.cells }
{
    if !all_below(binder, slots.count) {
        return OptionBox::none();
    }
    let mut slate = OptionBox::full(&slots.sizes[..slots.count]);
    settle(binder, reach, slots.count, all_slots(), &mut slate);
    slate
}

impl<B: Binder> Planner<B> {
    // Opens a planner on the slots of a checked catalogue and a binder, whose marks are undone. The rule of each
    // sheet is what it keeps then.
    pub fn open(catalogue: &Catalogue, mut binder: B) -> Planner<B>
        ensures { After B.Binder.meaning (posed (slots_in catalogue.now.bytes.now) (B.Binder.meaning binder)) [] result }
    {
        let slots = slots_of(catalogue);
        undo_all(&mut binder);
        let reach = Reach::of(&binder);
        let slate = first_box(&mut binder, &reach, &slots);
        Planner {
            binder,
            slots,
            reach,
            slate,
            saved: [slate; 16],
            depth: 0,
        }
    }
}
