// Problems and logs at the limits: sixteen tries, as many slots and sheets as there can be, and scopes of eight slots.
use crate::enumerate::{count_lists, list_of};
use crate::logs::Log;
use crate::problem::{Model, Sheet, Weight};
use crate::reckon::Reckoner;
use catalogue::make::Make;
use std::alloc::{AllocError, Global};
use subject::call::Call;

// Seventeen tries of an option that stays open, and a strike among them; then eighteen times back.
pub fn put_tries(log: &mut Log, reckoner: &mut Reckoner, memory: usize) -> Result<(), AllocError> {
    for number in 0..17 {
        log.put(reckoner, memory, Some(Call::Try(0, 0)))?;
        if number == 9 {
            log.put(reckoner, memory, Some(Call::Strike(1, 1)))?;
            log.put(reckoner, memory, Some(Call::Look(1)))?;
        }
    }
    for _ in 0..18 {
        log.put(reckoner, memory, Some(Call::Back))?;
        log.put(reckoner, memory, Some(Call::Look(1)))?;
    }
    Ok(())
}

// Eight slots in a row.
fn put_window(first: u8, scope: &mut Vec<u8>) -> Result<(), AllocError> {
    for slot in first..first.saturating_add(8) {
        scope.push(slot)?;
    }
    Ok(())
}

// A fit sheet without one of its lists, or a bar sheet with one; of most sheets every list stays.
fn table(heap: Global, sizes: &[u8], number: u8) -> Result<Sheet, AllocError> {
    let make = if number % 2 == 0 {
        Make::Fit
    } else {
        Make::Bar
    };
    let mut sheet = Sheet::new(heap, make, 0);
    put_window(number % 41, &mut sheet.scope)?;
    let many = count_lists(sizes, &sheet.scope);
    let picked = u64::from(number) * 3 % many.max(1);
    for list in 0..many {
        let left_out = many > 2 && number % 7 < 2 && list == picked;
        if left_out == (number % 2 == 1) {
            sheet.rows.push(list_of(sizes, &sheet.scope, list))?;
        }
    }
    Ok(sheet)
}

fn load(heap: Global, sizes: &[u8], number: u8) -> Result<Sheet, AllocError> {
    let mut sheet = Sheet::new(heap, Make::Load, 110);
    put_window(number % 8 * 5, &mut sheet.scope)?;
    let mut position = 0u8;
    for slot in &sheet.scope {
        for option in 0..sizes.get(*slot as usize).copied().unwrap_or(0) {
            let part = u32::from(position) * 7 + u32::from(option) * 11 + u32::from(number);
            sheet.weights.push(Weight {
                position,
                option,
                amount: (part % 20) as i16,
            })?;
        }
        position = position.wrapping_add(1);
    }
    Ok(sheet)
}

// 48 slots, 64 sheets of eight slots each, and 8 load sheets among them.
pub fn full(heap: Global) -> Result<Model, AllocError> {
    let mut model = Model::new(heap);
    for slot in 0..48u8 {
        model.sizes.push(if slot % 6 == 0 { 2 } else { 1 })?;
    }
    for number in 0..56u8 {
        let sheet = table(heap, &model.sizes, number)?;
        model.sheets.push(sheet)?;
    }
    for number in 0..8u8 {
        let sheet = load(heap, &model.sizes, number)?;
        model.sheets.push(sheet)?;
    }
    Ok(model)
}
