//! The templates of a function, whose names have places.

ghost use Rattle.std.specs.Prelude.{◌≡◌, ◌++◌, ◌+◌, ◌-◌, ◌*◌, ◌<◌, ◌≤◌, ◌^◌, IsTrue, length, slice_index, OnOk};
ghost use Rattle.g_graph.specs.WellFormed.{all_of};
ghost use Rattle.s_linear.specs.Frame.{frame_size, object_at, objects_at, registers, saved_of};
ghost use Rattle.s_select.specs.Operands.{offsets_from};
ghost use Rattle.s_select.specs.Templates.{get_arguments, place_of, put_params, size_of, words};
ghost use Rattle.s_select.specs.Conditions.{has_place};

use crate::location::{Location, REGISTERS, location_of};
use crate::operands::{push_get, push_put};
use g_graph::Object;
use rv_isa::Reg;
use rv_layout::Item;
use s_linear::Places;
use std::alloc::AllocError;

/// What the templates of a function ask: its places, its memory objects, and where each of these
/// begins.
#[derive(Clone, Copy)]
pub struct Function<'a> {
    pub places: &'a Places,
    pub objects: &'a [Object],
    pub offsets: &'a [u32],
    ghost begins: { offsets.now ≡ offsets_from (objects_at places.now.count) objects.now },
    ghost fits: { frame_size places.now.count objects.now < 2 ^ 32 },
    ghost few: { places.now.temporaries ≤ 4 },
}

impl Function<'_> {
    /// The place of a name.
    pub fn place(&self, name: u32) -> u32
        requires { IsTrue (has_place self.now.places.now name) }
        ensures place { result ≡ slice_index self.now.places.now.of name }
        ensures small { 4 * (result - (registers + self.now.places.now.temporaries)) < 2 ^ 32 }
    {
        let places = self.places;
        places.of[name as usize]
    }

    /// Where the value of a name is.
    pub fn place_of(&self, name: u32) -> Location
        requires { IsTrue (has_place self.now.places.now name) }
        ensures { result ≡ place_of self.now.places.now name }
    {
        let places = self.places;
        location_of(places.temporaries, self.place(name))
    }

    /// How many registers the function keeps for its caller.
    pub fn saved(&self) -> u32
        ensures value { result ≡ saved_of self.now.places.now.count }
        ensures few { result ≤ REGISTERS }
    {
        let places = self.places;
        places.count.min(REGISTERS)
    }

    /// The offset of an object from the stack pointer.
    pub fn offset_of(&self, number: u32) -> u32
        requires { number < length self.now.objects.now }
        ensures { result ≡ object_at self.now.places.now.count self.now.objects.now number }
    {
        self.offsets[number as usize]
    }

    /// The size of an object.
    pub fn size_of(&self, number: u32) -> u32
        requires { number < length self.now.objects.now }
        ensures size { result ≡ size_of self.now.objects.now number }
        ensures small { result + 3 < 2 ^ 32 }
    {
        let object = &self.objects[number as usize];
        object.size
    }

    /// Values from the argument registers to the places of parameters.
    pub fn push_params(&self, items: &mut Vec<Item>, params: &[u32]) -> Result<(), AllocError>
        requires placed { IsTrue (all_of (has_place self.now.places.now) params.now) }
        requires few { length params.now ≤ 8 }
        ensures { OnOk result (items.new.items
            ≡ items.old.items ++ words (put_params self.now.places.now 10 params.now)) }
    {
        let mut register = 10;
        for name in params {
            push_put(items, &self.place_of(*name), Reg::new(register))?;
            register += 1;
        }
        Ok(())
    }

    /// The values of arguments into the argument registers.
    pub fn push_arguments(&self, items: &mut Vec<Item>, arguments: &[u32]) -> Result<(), AllocError>
        requires placed { IsTrue (all_of (has_place self.now.places.now) arguments.now) }
        requires few { length arguments.now ≤ 8 }
        ensures { OnOk result (items.new.items
            ≡ items.old.items ++ words (get_arguments self.now.places.now 10 arguments.now)) }
    {
        let mut register = 10;
        for name in arguments {
            push_get(items, Reg::new(register), &self.place_of(*name))?;
            register += 1;
        }
        Ok(())
    }
}
