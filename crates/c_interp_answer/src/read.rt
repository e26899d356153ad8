//! Variables and objects that are read.

ghost use Rattle.std.specs.Prelude.{◌≡◌, List};
ghost use Rattle.val_core.specs.Memory.{Memory};
ghost use Rattle.c_interp_store.specs.Holding.{Opened, Holds};
ghost use Rattle.c_interp_answer.specs.TaskViews.{slots_of};
ghost use Rattle.c_interp_answer.specs.Answered.{place_word, place_value, loaded_value, loaded_word, place_address, object_in};

use crate::number::number;
use crate::scope::Scope;
use c_interp_def::Slot;
use c_interp_store::{Store, access_width, extended, used};
use c_type::CType;
use c_typed::{PlaceForm, TPlace};
use val_core::Value;

/// The number that a variable holds, where the place is one that holds a number.
pub(crate) fn variable_word(slots: &[Slot], p: &TPlace) -> Option<u32>
    ensures { result ≡ place_word (slots_of slots.now) p.now }
{
    match &p.form {
        PlaceForm::Local(k) => match slots.get(*k as usize) {
            Some(Slot::Holds(Value::Num(w))) => Some(*w),
            _ => None,
        },
        _ => None,
    }
}

/// The value that a variable holds, where the place is one that has a value.
pub(crate) fn variable_value(slots: &[Slot], p: &TPlace) -> Option<Value>
    ensures { result ≡ place_value (slots_of slots.now) p.now }
{
    match &p.form {
        PlaceForm::Local(k) => match slots.get(*k as usize) {
            Some(Slot::Holds(v)) => used(*v),
            _ => None,
        },
        _ => None,
    }
}

/// What is read at an address of an object of this type, where it has a value.
pub fn loaded(store: &Store, t: &CType, at: Value) -> Option<Value>
    ensures { (calls : List Opened) (m : Memory) → Holds store.now calls m →
        result ≡ loaded_value t.now at m }
{
    match store.load(access_width(t), at) {
        Some(v) => used(extended(t, v)),
        None => None,
    }
}

/// The same, where it is a number.
#[inline(always)]
pub(crate) fn loaded_word(store: &Store, t: &CType, at: Value) -> Option<u32>
    ensures { (calls : List Opened) (m : Memory) → Holds store.now calls m →
        result ≡ loaded_word t.now at m }
{
    match store.load(access_width(t), at) {
        Some(v) => number(extended(t, v)),
        None => None,
    }
}

/// The address of an object in scope at a slot.
pub(crate) fn slot_address<'a>(scope: &Scope<'a>, slot: u32) -> Option<Value>
    ensures { result ≡ place_address (object_in scope.now) (slots_of scope.now.slots.now) slot }
{
    match scope.slots.get(slot as usize) {
        Some(Slot::Object(number)) => {
            Some(scope.layouts.object(scope.function, scope.first, *number))
        }
        _ => None,
    }
}
