// Problems made without a plan, the same ones in each run.
use crate::enumerate::{count_lists, list_of};
use crate::problem::{Model, Sheet, Weight};
use catalogue::make::Make;
use samples::random::Random;
use std::alloc::{AllocError, Global};

// How large a problem is at most, and of which make its sheets are where they are all of one.
#[derive(Clone, Copy)]
pub struct Shape {
    pub slots: u8,
    pub options: u8,
    pub sheets: u8,
    pub scope: u8,
    pub heaviest: i16,
    pub make: Option<Make>,
}

fn any_make(random: &mut Random) -> Make {
    match random.below(3) {
        0 => Make::Fit,
        1 => Make::Bar,
        _ => Make::Load,
    }
}

// Different slots, as many as asked for or fewer.
fn put_scope(
    random: &mut Random,
    slots: u8,
    many: u8,
    scope: &mut Vec<u8>,
) -> Result<(), AllocError> {
    for _ in 0..many {
        let slot = random.below(slots);
        if !scope.contains(&slot) {
            scope.push(slot)?;
        }
    }
    Ok(())
}

// A number from -most to most.
fn amount(random: &mut Random, most: i16) -> i16 {
    let part = i32::from(random.below(201)) - 100;
    i16::try_from(i32::from(most) * part / 100).unwrap_or(0)
}

fn put_rows(random: &mut Random, sizes: &[u8], sheet: &mut Sheet) -> Result<(), AllocError> {
    // Of a fit sheet three lists of five, of a bar sheet one of five.
    let often = if sheet.make == Make::Fit { 3 } else { 1 };
    for number in 0..count_lists(sizes, &sheet.scope) {
        if random.below(5) < often {
            let list = list_of(sizes, &sheet.scope, number);
            sheet.rows.push(list)?;
        }
    }
    Ok(())
}

fn put_weights(
    random: &mut Random,
    most: i16,
    sizes: &[u8],
    sheet: &mut Sheet,
) -> Result<(), AllocError> {
    let mut position = 0u8;
    for slot in &sheet.scope {
        for option in 0..sizes.get(*slot as usize).copied().unwrap_or(0) {
            if random.below(4) > 0 {
                let amount = amount(random, most);
                sheet.weights.push(Weight {
                    position,
                    option,
                    amount,
                })?;
            }
        }
        position = position.wrapping_add(1);
    }
    Ok(())
}

fn sheet(
    heap: Global,
    random: &mut Random,
    shape: Shape,
    sizes: &[u8],
) -> Result<Sheet, AllocError> {
    let make = shape.make.unwrap_or(any_make(random));
    let cap = i32::from(amount(random, shape.heaviest));
    let mut sheet = Sheet::new(heap, make, cap);
    let many = 1 + random.below(shape.scope) % 8;
    put_scope(random, shape.slots, many, &mut sheet.scope)?;
    match make {
        Make::Load => put_weights(random, shape.heaviest, sizes, &mut sheet)?,
        _ => put_rows(random, sizes, &mut sheet)?,
    }
    Ok(sheet)
}

// A problem of so many slots, and at most so much of all else.
pub fn made(heap: Global, random: &mut Random, shape: Shape) -> Result<Model, AllocError> {
    let mut model = Model::new(heap);
    for _ in 0..shape.slots {
        model.sizes.push(1 + random.below(shape.options) % 32)?;
    }
    for _ in 0..random.below(shape.sheets) {
        let sheet = sheet(heap, random, shape, &model.sizes)?;
        model.sheets.push(sheet)?;
    }
    Ok(model)
}
