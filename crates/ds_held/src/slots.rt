//! Slots, and the numbers of those that are in a list and of those that are spare.

ghost use Rattle.std.specs.Prelude.{◌≡◌, ◌<◌, ◌≤◌, ◌++◌, ◌∷◌, [], None, length, slice_set, vec_capacity, vec_len, IfOk, OnOk, OnErr};
ghost use Rattle.std.specs.List.{insert, remove};
ghost use Rattle.ds_held.specs.Rows.{rows_of, AreFilled, AreInSlots, AreListed, AreNumbersApart, IsFreeSlot};

use ds_names::NoRoom;

// Adds an empty slot, and returns its number. There is memory then to note each slot as spare.
fn new_slot<T: Drop>(spare: &mut Vec<u16>, slots: &mut Vec<Option<T>>) -> Result<u16, NoRoom>
    requires few { length slots.old.items < 65536 }
    ensures spare { spare.new.items ≡ spare.old.items }
    ensures capacity { vec_capacity spare.old ≤ vec_capacity spare.new }
    ensures slots { OnOk result (slots.new.items ≡ slots.old.items ++ None ∷ []) }
    ensures number { IfOk result (λ slot. slot ≡ length slots.old.items) }
    ensures room { OnOk result (length slots.new.items ≤ vec_capacity spare.new) }
    ensures same { OnErr result (slots.new.items ≡ slots.old.items) }
{
    let slot = slots.len() as u16;
    spare.reserve(slots.len() + 1)?;
    slots.push(None)?;
    Ok(slot)
}

// Returns the number of a free slot: the last spare one, or a new one.
fn free_slot<T: Drop>(
    order: &[u16],
    spare: &mut Vec<u16>,
    slots: &mut Vec<Option<T>>,
) -> Result<u16, NoRoom>
    requires rows { AreInSlots order.now spare.old.items slots.old.items (vec_capacity spare.old) }
    requires few { length order.now < 65536 }
    ensures free { IfOk result (λ slot. IsFreeSlot order.now slot spare.new.items slots.new.items (vec_capacity spare.new)) }
    ensures rows { OnErr result (AreInSlots order.now spare.new.items slots.new.items (vec_capacity spare.new)) }
    ensures list { rows_of order.now slots.new.items ≡ rows_of order.now slots.old.items }
{
    match spare.pop() {
        Some(slot) => Ok(slot),
        None => new_slot(spare, slots),
    }
}

// Inserts a number, for which the list has memory.
fn insert_number(numbers: &mut Vec<u16>, index: usize, number: u16)
    requires within { index ≤ vec_len numbers.old }
    requires room { vec_len numbers.old < vec_capacity numbers.old }
    ensures { numbers.new.items ≡ insert numbers.old.items index number }
{
    let _ = numbers.insert(index, number);
}

// Appends a number, for which the list has memory.
fn push_number(numbers: &mut Vec<u16>, number: u16)
    requires { vec_len numbers.old < vec_capacity numbers.old }
    ensures items { numbers.new.items ≡ numbers.old.items ++ number ∷ [] }
    ensures capacity { vec_capacity numbers.old ≤ vec_capacity numbers.new }
{
    let _ = numbers.push(number);
}

// Puts an element into a free slot, and the slot's number at an index of the order.
pub(crate) fn insert_in<T: Drop>(
    order: &mut Vec<u16>,
    spare: &mut Vec<u16>,
    slots: &mut Vec<Option<T>>,
    index: usize,
    element: T,
) -> Result<(), NoRoom>
    requires rows { AreInSlots order.old.items spare.old.items slots.old.items (vec_capacity spare.old) }
    requires within { index ≤ length order.old.items }
    requires few { length order.old.items < 65536 }
    ensures rows { AreInSlots order.new.items spare.new.items slots.new.items (vec_capacity spare.new) }
    ensures row { OnOk result (rows_of order.new.items slots.new.items ≡ insert (rows_of order.old.items slots.old.items) index element) }
    ensures same { OnErr result (rows_of order.new.items slots.new.items ≡ rows_of order.old.items slots.old.items) }
{
    order.reserve(1)?;
    let slot = free_slot(order, spare, slots)?;
    slots[usize::from(slot)] = Some(element);
    insert_number(order, index, slot);
    Ok(())
}

// Empties the slot whose number is at an index of the order, and notes it as spare.
pub(crate) fn remove_in<T: Drop>(
    order: &mut Vec<u16>,
    spare: &mut Vec<u16>,
    slots: &mut Vec<Option<T>>,
    index: usize,
)
    requires rows { AreInSlots order.old.items spare.old.items slots.old.items (vec_capacity spare.old) }
    requires within { index < length order.old.items }
    ensures rows { AreInSlots order.new.items spare.new.items slots.new.items (vec_capacity spare.new) }
    ensures removed { rows_of order.new.items slots.new.items ≡ remove (rows_of order.old.items slots.old.items) index }
{
    let slot = order.remove(index);
    slots[usize::from(slot)] = None;
    push_number(spare, slot);
}

// Puts another element into the slot whose number is at an index of the order.
pub(crate) fn set_in<T: Drop>(order: &[u16], slots: &mut Vec<Option<T>>, index: usize, element: T)
    requires within { index < length order.now }
    requires filled { AreFilled order.now slots.old.items }
    requires listed { AreListed order.now slots.old.items }
    requires apart { AreNumbersApart order.now }
    ensures filled { AreFilled order.now slots.new.items }
    ensures listed { AreListed order.now slots.new.items }
    ensures count { length slots.new.items ≡ length slots.old.items }
    ensures set { rows_of order.now slots.new.items ≡ slice_set (rows_of order.now slots.old.items) index element }
{
    slots[usize::from(order[index])] = Some(element);
}
