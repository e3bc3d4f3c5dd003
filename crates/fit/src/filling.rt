// Fills a fit binder from a checked catalogue.
ghost use Rattle.std.specs.Prelude.{◌≡◌, ◌/◌, ◌<◌, ◌≤◌, length};
ghost use Rattle.catalogue.specs.Verdict.{content};
ghost use Rattle.sheets.specs.Tables.{sheets_in};
ghost use Rattle.sheets.specs.Rules.{Fresh};
ghost use Rattle.fit.specs.Laid.{row_count, rows_before, Each, RunsApart, Numbered, Runs};
ghost use Rattle.fit.specs.Meaning.{meaning_of};

use crate::Fit;
use binder::marks::Marks;
use catalogue::checked::Catalogue;
use catalogue::make::Make;
use catalogue::view::View;
use sheets::sheet::ROW;
use sheets::table::SheetTable;
use sheets::taking::sheets_of;

// How many rows a sheet has, as a view shows it.
fn row_count(view: &View) -> usize
    ensures { result ≡ length view.now.entries.now / 9 }
{
    view.entries.len() / ROW
}

// How many rows each sheet has.
fn row_counts(sheets: &SheetTable) -> [u16; 64]
    requires { rows_before sheets.now.views sheets.now.count ≤ 4096 }
    ensures { Each (row_count sheets.now.views) result sheets.now.count }
{
    let mut counts = [0; 64];
    for (sheet, view) in sheets.views[..sheets.count].iter().enumerate() {
        counts[sheet] = row_count(view) as u16;
    }
    counts
}

// Where the run of each sheet begins: behind the runs of the sheets before it.
fn run_starts(sheets: &SheetTable) -> [u16; 64]
    requires { rows_before sheets.now.views sheets.now.count ≤ 4096 }
    ensures { Each (rows_before sheets.now.views) result sheets.now.count }
{
    let mut starts = [0; 64];
    let mut start = 0;
    for (sheet, view) in sheets.views[..sheets.count].iter().enumerate() {
        starts[sheet] = start as u16;
        start += row_count(view);
    }
    starts
}

// Puts the numbers from 0 up into a run of places.
fn lay_run(run: &mut [u16])
    requires { length run.old ≤ 4096 }
    ensures { Numbered run.new (length run.old) }
{
    for (place, row) in run.iter_mut().enumerate() {
        *row = place as u16;
    }
}

// The places of `n` runs: each holds the row numbers of its sheet, in their order.
fn run_places(starts: &[u16; 64], counts: &[u16; 64], n: usize) -> [u16; 4096]
    requires { RunsApart starts.now counts.now n }
    ensures { Runs starts.now counts.now result n }
{
    let mut order = [0; 4096];
    'runs: for (start, count) in starts[..n].iter().zip(&counts[..n]) {
        let start = *start as usize;
        lay_run(&mut order[start..start + *count as usize]);
    }
    order
}

impl<'a> Fit<'a> {
    // The binder of a catalogue's fit sheets. Each keeps all of its rows.
    pub fn new(catalogue: &Catalogue<'a>) -> Fit<'a>
        ensures { Fresh (sheets_in (content catalogue.now.bytes.now) Make.Fit) (meaning_of result) }
    {
        let sheets = sheets_of(catalogue, Make::Fit);
        let counts = row_counts(&sheets);
        let starts = run_starts(&sheets);
        let order = run_places(&starts, &counts, sheets.count);
        Fit {
            sheets,
            order,
            starts,
            counts,
            saved: [[0; 64]; 72],
            marks: Marks::none(),
        }
    }
}
