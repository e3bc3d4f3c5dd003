// A checked catalogue: the bytes of an accepted file, lent by their owner, with their counts.
ghost use Rattle.std.specs.Prelude.{◌≡◌, ℕ, ◌<◌, true, slice_index};
ghost use Rattle.catalogue.specs.Verdict.{accepts, built_in, built_in_counts};

use crate::counts::Counts;

// How many bytes an accepted file has at most: those of 48 slots, of 56 headers of fit or bar sheets and 8 of load
// sheets, of 4,096 rows, of a weight for each of 32 options at each of 8 positions of 8 load sheets, and of the end.
pub const LONGEST: usize = 48 * 2 + 56 * 10 + 8 * 14 + 4096 * 9 + 8 * 8 * 32 * 5 + 1;

const _: () = prove!(LONGEST == 47_873);

// Its bytes are always an accepted file, and hold so much.
#[derive(Drop)]
pub struct Catalogue<'a> {
    pub bytes: &'a [u8],
    pub counts: Counts,
    ghost accepted: { accepts bytes.now counts ≡ true },
    ghost octets: { (i : ℕ) → slice_index bytes.now i < 256 },
}

// One slot of one option, a fit sheet on it with no row, and the end: the bytes of a file, as it stands on disk.
static BUILT_IN: [u8; 13] = [1, 1, 2, 1, 0, 255, 255, 255, 255, 255, 255, 255, 7];

impl<'a> Catalogue<'a> {
    // The catalogue that is there before any file is read.
    pub fn built_in() -> Catalogue<'a>
        ensures bytes { result.bytes.now ≡ built_in }
        ensures counts { result.counts ≡ built_in_counts }
    {
        Catalogue {
            bytes: &BUILT_IN,
            counts: Counts {
                slots: 1,
                sheets: 1,
                rows: 0,
            },
        }
    }
}
