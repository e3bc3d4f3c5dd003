// Plain enumeration: every box and every plan of a small problem, by what the words mean. An option of a slot is a bit
// of a number: those of slot 0 are the lowest bits, those of slot 1 come next, and so on, 64 at most.
use crate::problem::{Model, Sheet};
use std::alloc::{AllocError, Global};

#[derive(Drop)]
pub struct Enumerated {
    pub sizes: Vec<u8>,
    // The bits of each slot.
    masks: Vec<u64>,
    // Every supported box, and every plan that meets every sheet, in dictionary order.
    boxes: Vec<u64>,
    pub plans: Vec<[u8; 48]>,
}

// The number of the first option of a slot.
fn first_bit(sizes: &[u8], slot: usize) -> u32 {
    let mut sum = 0u32;
    for size in sizes.iter().take(slot) {
        sum = sum.wrapping_add(u32::from(*size));
    }
    sum % 64
}

fn bit(sizes: &[u8], slot: usize, option: u8) -> u64 {
    1 << (first_bit(sizes, slot).wrapping_add(u32::from(option)) % 64)
}

fn size_of(sizes: &[u8], slot: u8) -> u64 {
    u64::from(sizes.get(slot as usize).copied().unwrap_or(1).max(1))
}

// A sheet over such numbers: the bits of its scope, and each admitted list of the slots' own options.
#[derive(Drop)]
struct Table {
    scope: u64,
    lists: Vec<u64>,
}

// The options of a list by its number.
pub fn list_of(sizes: &[u8], scope: &[u8], number: u64) -> [u8; 8] {
    let mut list = [0; 8];
    let mut rest = number;
    for (option, slot) in list.iter_mut().zip(scope) {
        let size = size_of(sizes, *slot).max(1);
        *option = ((rest % size) & 0xFF) as u8;
        rest /= size;
    }
    list
}

// How many lists of the slots' own options there are for a scope.
pub fn count_lists(sizes: &[u8], scope: &[u8]) -> u64 {
    let mut many = 1u64;
    for slot in scope {
        many = many.wrapping_mul(size_of(sizes, *slot));
    }
    many
}

fn table_of(heap: Global, sizes: &[u8], masks: &[u64], sheet: &Sheet) -> Result<Table, AllocError> {
    let scope = sheet.scope.as_slice();
    let mut bits = 0;
    for slot in scope {
        bits |= masks.get(*slot as usize).copied().unwrap_or(0);
    }
    let mut lists = Vec::new(heap);
    for number in 0..count_lists(sizes, scope) {
        let list = list_of(sizes, scope, number);
        if sheet.admits(&list) {
            let mut held = 0;
            for (option, slot) in list.iter().zip(scope) {
                held |= bit(sizes, *slot as usize, *option);
            }
            lists.push(held)?;
        }
    }
    Ok(Table { scope: bits, lists })
}

// Whether each open option of the scope is in an admitted list that fits the box.
fn supports(table: &Table, open: u64) -> bool {
    let mut supported = 0;
    for list in &table.lists {
        if *list & !open == 0 {
            supported |= *list;
        }
    }
    open & table.scope & !supported == 0
}

// A box by its number, among those with an open option in each slot.
fn box_of(sizes: &[u8], number: u64) -> u64 {
    let mut open = 0;
    let mut rest = number;
    for (slot, size) in sizes.iter().enumerate() {
        let choices = (1u64 << (*size % 32)).wrapping_sub(1).max(1);
        let some = 1 + rest % choices;
        rest /= choices;
        open |= some << (first_bit(sizes, slot) % 64);
    }
    open
}

fn boxes_of(heap: Global, sizes: &[u8], tables: &[Table]) -> Result<Vec<u64>, AllocError> {
    let mut many = 1u64;
    for size in sizes {
        many = many.wrapping_mul((1u64 << (*size % 32)).wrapping_sub(1).max(1));
    }
    let mut boxes = Vec::new(heap);
    for number in 0..many {
        let open = box_of(sizes, number);
        if tables.iter().all(|table| supports(table, open)) {
            boxes.push(open)?;
        }
    }
    Ok(boxes)
}

// A plan by its number: slot 0 counts slowest, so that numbers go in dictionary order.
fn plan_of(sizes: &[u8], number: u64) -> [u8; 48] {
    let mut plan = [0; 48];
    let mut rest = number;
    for (option, size) in plan.iter_mut().zip(sizes).rev() {
        let size = u64::from(*size).max(1);
        *option = (rest % size) as u8;
        rest /= size;
    }
    plan
}

fn meets(sheet: &Sheet, plan: &[u8; 48]) -> bool {
    let mut list = [0; 8];
    for (option, slot) in list.iter_mut().zip(&sheet.scope) {
        *option = plan.get(*slot as usize).copied().unwrap_or(0);
    }
    sheet.admits(&list)
}

fn plans_of(heap: Global, sizes: &[u8], sheets: &[Sheet]) -> Result<Vec<[u8; 48]>, AllocError> {
    let mut many = 1u64;
    for size in sizes {
        many = many.wrapping_mul(u64::from(*size));
    }
    let mut plans = Vec::new(heap);
    for number in 0..many {
        let plan = plan_of(sizes, number);
        if sheets.iter().all(|sheet| meets(sheet, &plan)) {
            plans.push(plan)?;
        }
    }
    Ok(plans)
}

impl Enumerated {
    // Where a sheet names a slot beyond the last, no box is supported and no plan meets it.
    pub fn of(heap: Global, model: &Model) -> Result<Enumerated, AllocError> {
        let sizes = model.sizes.clone()?;
        let mut masks = Vec::new(heap);
        for (slot, size) in sizes.iter().enumerate() {
            let full = (1u64 << (*size % 32)).wrapping_sub(1);
            masks.push(full << (first_bit(&sizes, slot) % 64))?;
        }
        if model.names_beyond() {
            return Ok(Enumerated {
                sizes,
                masks,
                boxes: Vec::new(heap),
                plans: Vec::new(heap),
            });
        }
        let mut tables = Vec::new(heap);
        for sheet in &model.sheets {
            tables.push(table_of(heap, &sizes, &masks, sheet)?)?;
        }
        let boxes = boxes_of(heap, &sizes, &tables)?;
        let plans = plans_of(heap, &sizes, &model.sheets)?;
        Ok(Enumerated {
            sizes,
            masks,
            boxes,
            plans,
        })
    }

    // What is open within some options: all that a supported box within them opens.
    pub fn largest(&self, within: u64) -> u64 {
        let mut open = 0;
        for supported in &self.boxes {
            if *supported & !within == 0 {
                open |= *supported;
            }
        }
        open
    }

    pub fn bit(&self, slot: usize, option: u8) -> u64 {
        bit(&self.sizes, slot, option)
    }

    // Every option of a slot.
    pub fn slot(&self, slot: usize) -> u64 {
        self.masks.get(slot).copied().unwrap_or(0)
    }

    // Every option of every slot.
    pub fn every(&self) -> u64 {
        let mut open = 0;
        for mask in &self.masks {
            open |= *mask;
        }
        open
    }

    // The options of a slot among some, from bit 0 on.
    pub fn look(&self, slot: usize, open: u64) -> u32 {
        (((open & self.slot(slot)) >> (first_bit(&self.sizes, slot) % 64)) & 0xFFFF_FFFF) as u32
    }

    // A plan as such a number.
    pub fn bits(&self, plan: &[u8; 48]) -> u64 {
        let mut held = 0;
        for (slot, option) in plan.iter().enumerate().take(self.sizes.len()) {
            held |= self.bit(slot, *option);
        }
        held
    }
}
