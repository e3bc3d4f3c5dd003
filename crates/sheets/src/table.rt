// The sheets of one make, as a checked catalogue shows them: what every make of binder stands on.
ghost use Rattle.std.specs.Prelude.{◌≡◌, ◌<◌, ◌≤◌, [], length, MatchResult};
ghost use Rattle.binder.specs.Refusals.{number_of, numbered};
ghost use Rattle.catalogue.specs.Views.{shown_by};
ghost use Rattle.sheets.specs.Tables.{Taken, shown_at, arity_in, slot_in};
ghost use Rattle.sheets.specs.Opened.{shown_of};

use crate::scope::Scope;
use crate::sheet::Sheet;
use binder::refusal::BinderRefusal;
use catalogue::make::Make;
use catalogue::view::View;

// What shows nothing.
pub(crate) fn no_view<'a>() -> View<'a>
    ensures { shown_by result ≡ shown_at [] 0 }
{
    View {
        scope: &[],
        cap: 0,
        entries: &[],
    }
}

// The first `count` views are the sheets, in the file's order. They are sound: some sound catalogue has
// them. They stand in a table of all that there can be, since memory is fixed: the library takes none from a
// heap, and an `ArrayVec` is not `Copy`.
#[derive(Clone, Copy)]
pub struct SheetTable<'a> {
    pub make: Make,
    pub views: [View<'a>; 64],
    pub count: usize,
    ghost few: { count ≤ 64 },
    ghost long: { length views ≡ 64 },
    ghost taken: { ∥ Taken make views count ∥₁ },
}

impl<'a> SheetTable<'a> {
    // Sheet s, counted from 0; what lies past the last of the table shows nothing. It cannot fail, as promised;
    // `sheet` stands beside it.
    pub fn view(&self, s: usize) -> View<'a>
        ensures { shown_by result ≡ shown_at self.now.views s }
    {
        self.views.get(s).copied().unwrap_or(no_view())
    }

    // Sheet s, counted from 0, if there is one.
    pub fn sheet(&self, s: usize) -> Result<Sheet<'a>, BinderRefusal>
        ensures { MatchResult result (λ sheet. (s < self.now.count) × (shown_of sheet ≡ shown_at self.now.views s))
            (λ e. (number_of e ≡ 31) × (self.now.count ≤ s)) }
    {
        if s >= self.count {
            return Err(BinderRefusal::NotThere);
        }
        let view = self.view(s);
        Ok(Sheet {
            scope: Scope { slots: view.scope },
            cap: view.cap,
            entries: view.entries,
        })
    }

    // How many slots a sheet names.
    pub fn arity(&self, s: usize) -> Result<usize, BinderRefusal>
        ensures { numbered result ≡ arity_in self.now.views self.now.count s }
    {
        let sheet = self.sheet(s)?;
        Ok(sheet.scope.slots.len())
    }

    // The slot at a position of a sheet's scope.
    pub fn slot_at(&self, s: usize, position: usize) -> Result<usize, BinderRefusal>
        ensures { numbered result ≡ slot_in self.now.views self.now.count s position }
    {
        let sheet = self.sheet(s)?;
        match sheet.scope.slots.get(position) {
            Some(slot) => Ok(usize::from(*slot)),
            None => Err(BinderRefusal::NotThere),
        }
    }
}
