// The makes of sheets: what a sheet's rule is given by.

// A fit sheet admits its rows, a bar sheet all but its rows, and a load sheet the lists whose weights
// total at most its cap.
#[derive(Clone, Copy, PartialEq, Debug)]
pub enum Make {
    Fit,
    Bar,
    Load,
}
