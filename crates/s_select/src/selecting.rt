//! Selection of items, line by line.

ghost use Rattle.std.specs.Prelude.{◌≡◌, ◌++◌, ◌≤◌, ◌<◌, IsTrue, length, IfOk, OnOk};
ghost use Rattle.g_graph.specs.WellFormed.{all_of};
ghost use Rattle.s_linear.specs.Frame.{frame_size};
ghost use Rattle.s_linear.specs.Linear as linear;
ghost use Rattle.s_linear.specs.Lines as lines;
ghost use Rattle.s_linear.specs.Lines.{does, instr_names};
ghost use Rattle.s_linear.specs.Views.{instr_of, line_of};
ghost use Rattle.s_select.specs.Templates.{instr_items, items_of, line_items};
ghost use Rattle.s_select.specs.Conditions.{CanSelect, has_few_arguments, has_few_params, has_place, names_have_places};
ghost use Rattle.s_linear.specs.Operands.{has_its_object};

use crate::frames::{push_give_frame, push_take_frame};
use crate::function::Function;
use crate::objects::offsets_from;
use crate::operands::{push_get, push_item};
use crate::templates::{
    push_binary, push_branch_equal, push_branch_not_zero, push_branch_zero, push_call, push_clear,
    push_const, push_exit, push_get_byte, push_global_address, push_load, push_move,
    push_object_address, push_put_byte, push_store, push_unary,
};
use base::NoMemory;
use g_graph::Object;
use rv_isa::Reg;
use rv_layout::Item;
use s_linear::{Frame, Instr, Line, Linear, Places};
use std::alloc::{AllocError, Global};
use val_core::{Op1, Op2};

impl Function<'_> {
    fn binary(
        &self,
        items: &mut Vec<Item>,
        op: Op2,
        to: u32,
        left: u32,
        right: u32,
    ) -> Result<(), AllocError>
        requires to { IsTrue (has_place self.now.places.now to) }
        requires left { IsTrue (has_place self.now.places.now left) }
        requires right { IsTrue (has_place self.now.places.now right) }
        ensures { OnOk result (items.new.items
            ≡ items.old.items
            ++ instr_items self.now.places.now self.now.objects.now
            (linear.binary op to left right)) }
    {
        let (to, left, right) = (self.place_of(to), self.place_of(left), self.place_of(right));
        push_binary(items, op, &to, &left, &right)
    }

    fn store(
        &self,
        items: &mut Vec<Item>,
        width: u8,
        address: u32,
        value: u32,
    ) -> Result<(), AllocError>
        requires address { IsTrue (has_place self.now.places.now address) }
        requires value { IsTrue (has_place self.now.places.now value) }
        ensures { OnOk result (items.new.items
            ≡ items.old.items
            ++ instr_items self.now.places.now self.now.objects.now
            (linear.store width address value)) }
    {
        push_store(items, width, &self.place_of(address), &self.place_of(value))
    }

    fn clear(&self, items: &mut Vec<Item>, number: u32) -> Result<(), AllocError>
        requires { number < length self.now.objects.now }
        ensures { OnOk result (items.new.items
            ≡ items.old.items
            ++ instr_items self.now.places.now self.now.objects.now (linear.clear number)) }
    {
        push_clear(items, self.offset_of(number), self.size_of(number))
    }

    fn move_value(&self, items: &mut Vec<Item>, to: u32, from: u32) -> Result<(), AllocError>
        requires to { IsTrue (has_place self.now.places.now to) }
        requires from { IsTrue (has_place self.now.places.now from) }
        ensures { OnOk result (items.new.items
            ≡ items.old.items
            ++ instr_items self.now.places.now self.now.objects.now (linear.move to from)) }
    {
        if self.place(to) == self.place(from) {
            return Ok(());
        }
        push_move(items, &self.place_of(to), &self.place_of(from))
    }

    fn call(
        &self,
        items: &mut Vec<Item>,
        function: u32,
        to: u32,
        arguments: &[u32],
    ) -> Result<(), AllocError>
        requires to { IsTrue (has_place self.now.places.now to) }
        requires arguments { IsTrue (all_of (has_place self.now.places.now) arguments.now) }
        requires few { length arguments.now ≤ 8 }
        ensures { OnOk result (items.new.items
            ≡ items.old.items
            ++ instr_items self.now.places.now self.now.objects.now
            (linear.call function to arguments.now)) }
    {
        self.push_arguments(items, arguments)?;
        push_call(items, function, &self.place_of(to))
    }

    /// The template of an instruction.
    fn push_instr(&self, items: &mut Vec<Item>, instr: &Instr) -> Result<(), AllocError>
        requires placed { IsTrue (all_of (has_place self.now.places.now) (instr_names (instr_of
            instr.now))) }
        requires object { IsTrue (has_its_object (length self.now.objects.now) (instr_of
            instr.now)) }
        requires arguments { IsTrue (has_few_arguments (instr_of instr.now)) }
        ensures { OnOk result (items.new.items
            ≡ items.old.items ++ instr_items self.now.places.now self.now.objects.now (instr_of
            instr.now)) }
    {
        match instr {
            Instr::Const { target, word } => push_const(items, &self.place_of(*target), *word),
            Instr::Undef { .. } => Ok(()),
            Instr::ObjectAddress { target, number } => {
                push_object_address(items, &self.place_of(*target), self.offset_of(*number))
            }
            Instr::GlobalAddress { target, number } => {
                push_global_address(items, &self.place_of(*target), *number)
            }
            Instr::Binary {
                op,
                target,
                left,
                right,
            } => self.binary(items, *op, *target, *left, *right),
            Instr::Unary { op, target, input } => {
                push_unary(items, *op, &self.place_of(*target), &self.place_of(*input))
            }
            Instr::Load {
                width,
                target,
                address,
            } => push_load(
                items,
                *width,
                &self.place_of(*target),
                &self.place_of(*address),
            ),
            Instr::Store {
                width,
                address,
                value,
            } => self.store(items, *width, *address, *value),
            Instr::Clear { number } => self.clear(items, *number),
            Instr::EqualPointers {
                target,
                left,
                right,
            } => self.binary(items, Op2::Eq, *target, *left, *right),
            Instr::Move { target, source } => self.move_value(items, *target, *source),
            Instr::Call {
                function,
                target,
                arguments,
            } => self.call(items, *function, *target, arguments),
            Instr::Put { byte } => push_put_byte(items, &self.place_of(*byte)),
            Instr::Get { target } => push_get_byte(items, &self.place_of(*target)),
            Instr::Exit { status } => push_exit(items, &self.place_of(*status)),
        }
    }

    fn enter(&self, items: &mut Vec<Item>, size: u32, params: &[u32]) -> Result<(), AllocError>
        requires size { size ≡ frame_size self.now.places.now.count self.now.objects.now }
        requires placed { IsTrue (all_of (has_place self.now.places.now) params.now) }
        requires few { length params.now ≤ 8 }
        ensures { OnOk result (items.new.items
            ≡ items.old.items
            ++ line_items self.now.places.now self.now.objects.now (lines.enter params.now)) }
    {
        push_take_frame(items, size, self.saved())?;
        self.push_params(items, params)
    }

    fn leave(&self, items: &mut Vec<Item>, size: u32, value: u32) -> Result<(), AllocError>
        requires size { size ≡ frame_size self.now.places.now.count self.now.objects.now }
        requires placed { IsTrue (has_place self.now.places.now value) }
        ensures { OnOk result (items.new.items
            ≡ items.old.items
            ++ line_items self.now.places.now self.now.objects.now (lines.leave value)) }
    {
        push_get(items, Reg::A0, &self.place_of(value))?;
        push_give_frame(items, size, self.saved())
    }

    /// The template of a line, in a function whose frame has this size.
    fn push_line(&self, items: &mut Vec<Item>, size: u32, line: &Line) -> Result<(), AllocError>
        requires size { size ≡ frame_size self.now.places.now.count self.now.objects.now }
        requires placed { IsTrue (names_have_places self.now.places.now (line_of line.now)) }
        requires object { IsTrue (does (has_its_object (length self.now.objects.now)) (line_of
            line.now)) }
        requires params { IsTrue (has_few_params (line_of line.now)) }
        requires arguments { IsTrue (does has_few_arguments (line_of line.now)) }
        ensures { OnOk result (items.new.items
            ≡ items.old.items ++ line_items self.now.places.now self.now.objects.now (line_of
            line.now)) }
    {
        match line {
            Line::Enter { params } => self.enter(items, size, params),
            Line::Leave { value } => self.leave(items, size, *value),
            Line::Done { instr } => self.push_instr(items, instr),
            Line::BranchNotZero { predicate, label } => {
                push_branch_not_zero(items, &self.place_of(*predicate), *label)
            }
            Line::BranchZero { predicate, label } => {
                push_branch_zero(items, &self.place_of(*predicate), *label)
            }
            Line::BranchEqual {
                predicate,
                number,
                label,
            } => push_branch_equal(items, &self.place_of(*predicate), *number, *label),
            Line::Jump { label } => push_item(items, Item::Jump(*label)),
            Line::Label { number } => push_item(items, Item::Mark(*number)),
        }
    }
}

/// The items of a function: of each line of its linear code the template, at these places and with
/// this frame and these memory objects. It takes time linear in the lines. `NoMemory` only where
/// the allocator has none.
pub fn select(
    alloc: Global,
    linear: &Linear,
    places: &Places,
    frame: &Frame,
    objects: &[Object],
) -> Result<Vec<Item>, NoMemory>
    requires { CanSelect linear.now places.now frame.now objects.now }
    ensures { IfOk result (λ items. items.items ≡ items_of places.now objects.now linear.now) }
{
    let offsets = offsets_from(alloc, frame.objects_at, objects)?;
    let function = Function {
        places,
        objects,
        offsets: &offsets,
    };
    let mut items = Vec::new(alloc);
    for line in &linear.lines {
        function.push_line(&mut items, frame.size, line)?;
    }
    Ok(items)
}
