// How what a check answers is put into words: one line, without its end. And the words of layers and makes.
ghost use Rattle.std.specs.Prelude.{◌≡◌, Some};
ghost use Rattle.catalogue.specs.Wording.{layer_word, make_word, counts_line, fault_line};

use crate::counts::Counts;
use crate::fault::{Fault, Layer};
use crate::make::Make;
use std::fmt;

// Each type has its own words, so each has impls of its own where two look alike: one for both would be no plainer.
// A word is what a function answers, so its promise is an equation that holds of each call. Of `fmt` the library promises
// what is written only where it answers Ok, since whoever is written to may refuse.
impl Layer {
    // The word that the layer goes by.
    pub fn word(self) -> &'static str
        ensures { result.now ≡ layer_word self }
    {
        match self {
            Layer::Record => "record",
            Layer::Sheet => "sheet",
            Layer::Catalogue => "catalogue",
        }
    }
}

impl Make {
    // The word that the make goes by.
    pub fn word(self) -> &'static str
        ensures { result.now ≡ make_word self }
    {
        match self {
            Make::Fit => "fit",
            Make::Bar => "bar",
            Make::Load => "load",
        }
    }
}

impl fmt::Display for Layer {
    ghost output = { λ l. Some (layer_word l) };

    fn fmt<W: fmt::Write>(&self, f: &mut fmt::Formatter<W>) -> fmt::Result {
        let layer = self.word();
        f.write_str(layer)
    }
}

impl fmt::Display for Make {
    ghost output = { λ m. Some (make_word m) };

    fn fmt<W: fmt::Write>(&self, f: &mut fmt::Formatter<W>) -> fmt::Result {
        let make = self.word();
        f.write_str(make)
    }
}

impl fmt::Display for Counts {
    ghost output = { λ c. Some (counts_line c) };

    fn fmt<W: fmt::Write>(&self, f: &mut fmt::Formatter<W>) -> fmt::Result {
        let slots = self.slots;
        let sheets = self.sheets;
        let rows = self.rows;
        write!(f, "slots {slots} sheets {sheets} rows {rows}")
    }
}

impl fmt::Display for Fault {
    ghost output = { λ e. Some (fault_line e) };

    fn fmt<W: fmt::Write>(&self, f: &mut fmt::Formatter<W>) -> fmt::Result {
        let number = self.number;
        let layer = self.layer;
        let place = self.place;
        write!(f, "fault {number} {layer} {place}")
    }
}
