// The catalogues that are worked on.
use samples::draft::Draft;
use samples::random::Random;
use std::alloc::{AllocError, Global};

// Slots in a row, each linked with the next by a table of pairs: many plans, and no dead ends.
pub fn chain(heap: Global, slots: u8) -> Result<Draft, AllocError> {
    let mut draft = Draft::new(heap).slots(slots, 4)?;
    for slot in 0..slots.min(48).saturating_sub(1) {
        draft = draft.fit(&[slot, slot + 1])?;
        for pair in 0..16u8 {
            let (a, b) = (pair / 4, pair % 4);
            if (a + 2 * b + slot) % 3 != 0 {
                draft = draft.row(&[a, b])?;
            }
        }
    }
    draft.end()
}

// The digits of a number to the base four.
fn digits(number: u32) -> [u8; 8] {
    let digit = |place: u32| ((number >> (2 * (place % 8))) % 4) as u8;
    [
        digit(0),
        digit(1),
        digit(2),
        digit(3),
        digit(4),
        digit(5),
        digit(6),
        digit(7),
    ]
}

// Three tables of eight columns, each with half of its slots in the one before.
pub fn columns(heap: Global) -> Result<Draft, AllocError> {
    let mut draft = Draft::new(heap).slots(16, 4)?;
    for first in [0u8, 4, 8] {
        draft = draft.fit(&[
            first,
            first + 1,
            first + 2,
            first + 3,
            first + 4,
            first + 5,
            first + 6,
            first + 7,
        ])?;
        for row in 0..1000u32 {
            let number = row
                .wrapping_mul(40_503)
                .wrapping_add(7_919 * u32::from(first))
                % 65_536;
            draft = draft.row(&digits(number))?;
        }
    }
    draft.end()
}

// Sums of three slots of two options, each of which has to be as odd or even as for the plan 0 0 0 1 1 1 0 0 0 1 ..:
// which other plans meet them all is seen late.
pub fn dead_ends(heap: Global) -> Result<Draft, AllocError> {
    let mut draft = Draft::new(heap).slots(24, 2)?;
    let mut random = Random::new(5);
    for _ in 0..20 {
        let a = random.below(8);
        let b = 8 + random.below(8);
        let c = 16 + random.below(8);
        let odd = (a / 3 + b / 3 + c / 3) % 2;
        draft = draft.fit(&[a, b, c])?;
        for row in 0..8u8 {
            if (row / 4 + row / 2 + row) % 2 == odd {
                draft = draft.row(&[row / 4, row / 2 % 2, row % 2])?;
            }
        }
    }
    draft.end()
}

// Three slots each time of which a good third of all triples is barred.
pub fn bars(heap: Global) -> Result<Draft, AllocError> {
    let mut draft = Draft::new(heap).slots(12, 5)?;
    let mut random = Random::new(11);
    for slot in 0..10u8 {
        draft = draft.bar(&[slot, slot + 1, slot + 2])?;
        for triple in 0..125u8 {
            if random.below(5) < 2 {
                draft = draft.row(&[triple / 25, triple / 5 % 5, triple % 5])?;
            }
        }
    }
    draft.end()
}

// Eight load sheets of eight slots each, with a cap that half the average reaches.
pub fn loads(heap: Global) -> Result<Draft, AllocError> {
    let mut draft = Draft::new(heap).slots(16, 4)?;
    let mut random = Random::new(3);
    for first in 0..8u8 {
        let scope = [
            first,
            first + 1,
            first + 2,
            first + 3,
            first + 4,
            first + 5,
            first + 6,
            first + 7,
        ];
        draft = draft.load(&scope, 340)?;
        for position in 0..8u8 {
            for option in 0..4u8 {
                draft = draft.weight(position, option, i16::from(random.below(100)))?;
            }
        }
    }
    draft.end()
}

// As many slots, options, sheets and rows as there can be: each slot linked with the next by a table of pairs, some
// triples barred, and weights within a cap.
pub fn full(heap: Global) -> Result<Draft, AllocError> {
    let mut draft = Draft::new(heap).slots(48, 32)?;
    for slot in 0..40u8 {
        draft = draft.fit(&[slot, slot + 1])?;
        for option in 0..32u8 {
            draft = draft.row(&[option, option])?;
            draft = draft.row(&[option, (option + 7) % 32])?;
        }
    }
    for slot in 0..16u8 {
        draft = draft.bar(&[slot, slot + 16, slot + 32])?;
        for option in 0..96u8 {
            draft = draft.row(&[option % 32, option / 3, option / 32])?;
        }
    }
    for slot in 0..8u8 {
        let scope = [
            slot,
            slot + 6,
            slot + 12,
            slot + 18,
            slot + 24,
            slot + 30,
            slot + 36,
            slot + 40,
        ];
        draft = draft.load(&scope, 90)?;
        for position in 0..8u8 {
            for option in 0..32u8 {
                draft = draft.weight(position, option, i16::from((option + 5 * position) % 32))?;
            }
        }
    }
    draft.end()
}
