// Settles a box: shows it to the sheets of a binder until nothing closes. A lost slot is one that lost an option since the
// sheets that name it were last shown the box.
#![tactic(auto)]

ghost use Rattle.std.specs.Prelude.{◌≡◌, ◌<◌, ◌≤◌, true, Decides};
ghost use Rattle.boxes.specs.Boxes.{Within};
ghost use Rattle.settle.specs.Reach.{masks_of};
ghost use Rattle.settle.specs.Settled.{Settled, Tight, Alive};
ghost use Rattle.settle.specs.Passed.{Passed, PassedOn};
ghost use Rattle.settle.specs.Waiting.{Begun, Next};

mod looking;
mod naming;
pub mod reach;
mod waiting;

use crate::reach::Reach;
use crate::waiting::Waiting;
use binder::binders::Binder;
use boxes::OptionBox;

// The first sheet from a number on that names a slot of a set, or how many sheets there are. This is a loop of its own, so that
// passing over a sheet is a few steps, whatever showing one takes.
fn next(reach: &Reach, from: usize, count: usize, lost: u64) -> usize
    requires { from ≤ count }
    ensures { Next (masks_of reach.now) from count lost result }
{
    for sheet in from..count {
        if reach.spares(sheet, lost) {
            continue;
        }
        return sheet;
    }
    count
}

// Shows the next sheet the box, if it waits. Whether a slot may have no open option left by that.
fn ask<B: Binder>(
    binder: &mut B,
    reach: &Reach,
    waiting: &mut Waiting,
    sheet: usize,
    slate: &mut OptionBox,
) -> bool
    requires there { sheet < (B.Binder.meaning binder.now).count }
    requires less { Within slate.now.cells waiting.now.known.cells }
    ensures { PassedOn (B.Binder.meaning binder.old) (B.Binder.meaning binder.new) (masks_of reach.now) waiting.old waiting.new slate.old.cells slate.new.cells sheet }
{
    if !waiting.has(reach, sheet) {
        return false;
    }
    let _ = binder.show(sheet, slate);
    waiting.look(reach, sheet, slate)
}

// Shows the box to each sheet that waits, in the order of the sheets, and ends early where a slot has no open option left. Whether
// each of the first slots has one.
fn round<B: Binder>(
    binder: &mut B,
    reach: &Reach,
    slots: usize,
    waiting: &mut Waiting,
    slate: &mut OptionBox,
) -> bool
    requires { Begun waiting.now slate.now.cells }
    ensures tight { Tight (B.Binder.meaning binder.old) (B.Binder.meaning binder.new) slate.old.cells slate.new.cells }
    ensures alive { Decides result (Alive slate.new.cells slots) }
    ensures passed { result ≡ true → Passed (B.Binder.meaning binder.old) (B.Binder.meaning binder.new) (masks_of reach.now) waiting.old waiting.new slate.old.cells slate.new.cells (B.Binder.meaning binder.old).count }
{
    let count = binder.sheets();
    let mut sheet = next(reach, 0, count, waiting.lost());
    while sheet < count {
        if ask(binder, reach, waiting, sheet, slate) && !alive(slate, slots) {
            return false;
        }
        sheet = next(reach, sheet + 1, count, waiting.lost());
    }
    alive(slate, slots)
}

// Whether each of the first slots has an open option.
fn alive(slate: &OptionBox, slots: usize) -> bool
    ensures { Decides result (Alive slate.now.cells slots) }
{
    (0..slots).all(|slot| slate.has_open(slot))
}

// Shows the sheets that name a lost slot, then those that name a slot which is lost by that, and so on, until nothing
// closes. Where a slot has no open option left, no supported box is, and the whole box is closed. A sheet that names no lost
// slot has to hold what is open, so that it need not be asked; where one does not, the others are served all the same.
pub fn settle<B: Binder>(
    binder: &mut B,
    reach: &Reach,
    slots: usize,
    lost: u64,
    slate: &mut OptionBox,
)
    ensures { Settled (B.Binder.meaning binder.old) (B.Binder.meaning binder.new) (masks_of reach.now) lost slots slate.old.cells slate.new.cells }
{
    let mut waiting = Waiting::new(lost, slate);
    'rounds: loop {
        if !round(binder, reach, slots, &mut waiting, slate) {
            *slate = OptionBox::none();
            return;
        }
        if !waiting.turn(slate) {
            return;
        }
    }
}
