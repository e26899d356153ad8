//! How many bytes of the text a line of linear code has.

ghost use Rattle.std.specs.Prelude.{◌≡◌, ◌+◌, ◌-◌, ◌*◌, ◌==◌, ◌<◌, ◌≤◌, ◌^◌, if◌then◌else◌, IsTrue, length, slice_index, sum_by, IfOk};
ghost use Rattle.g_graph.specs.WellFormed.{all_of};
ghost use Rattle.s_linear.specs.Frame.{frame_size, object_at, object_room, objects_at, registers, saved_of};
ghost use Rattle.s_linear.specs.Linear as linear;
ghost use Rattle.s_linear.specs.Lines as lines;
ghost use Rattle.s_linear.specs.Lines.{does, instr_names};
ghost use Rattle.s_linear.specs.Operands.{has_its_object};
ghost use Rattle.s_linear.specs.Views.{instr_of, line_of};
ghost use Rattle.rv_layout.specs.Items.{items_size};
ghost use Rattle.s_select.specs.Conditions.{has_few_arguments, has_few_params, has_place, names_have_places};
ghost use Rattle.s_select.specs.Operands.{location_of, offsets_from};
ghost use Rattle.s_select.specs.Templates.{line_items, place_of, size_of};
ghost use Rattle.s_select.specs.Sizes.{binary_count, copies, copy, immediate, instr_count, line_count, move_count, operand, unary_count};

use base::NoMemory;
use g_graph::Object;
use rv_isa::Imm12;
use s_linear::{Instr, Line, Places};
use std::alloc::Global;
use val_core::{Op1, Op2};

// How many places are registers that a call keeps.
const REGISTERS: u32 = 11;

/// A function whose lines have a size: its places, its memory objects, where each of these begins,
/// and the bytes of its frame.
#[derive(Clone, Copy)]
pub struct Function<'a> {
    pub places: &'a Places,
    pub objects: &'a [Object],
    pub offsets: &'a [u32],
    pub size: u32,
    ghost begins: { offsets.now ≡ offsets_from (objects_at places.now.count) objects.now },
    ghost sized: { size ≡ frame_size places.now.count objects.now },
    ghost fits: { frame_size places.now.count objects.now < 2 ^ 32 },
    ghost few: { places.now.temporaries ≤ 4 },
}

fn object_room(object: &Object) -> u32
    requires { object_room object.now < 2 ^ 32 }
    ensures { result ≡ object_room object.now }
{
    object.size.next_multiple_of(4) + 4
}

/// Where each object begins, the first of them at an offset.
pub fn offsets_from(alloc: Global, start: u32, objects: &[Object]) -> Result<Vec<u32>, NoMemory>
    requires { start + sum_by object_room objects.now < 2 ^ 32 }
    ensures { IfOk result (λ all. all.items ≡ offsets_from start objects.now) }
{
    let mut all = Vec::with_capacity(alloc, objects.len())?;
    let mut at = start;
    for object in objects {
        all.push(at)?;
        at += object_room(object);
    }
    Ok(all)
}

// The instructions that load a word.
fn immediate(word: u32) -> u32
    ensures count { result ≡ immediate word }
    ensures few { result ≤ 2 }
{
    if Imm12::fits(word) { 1 } else { 2 }
}

// The instructions by which an operand comes to a register, or a result from one, with so many
// temporaries.
fn operand(temporaries: u32, place: u32) -> u32
    requires few { temporaries ≤ 4 }
    requires small { 4 * (place - (registers + temporaries)) < 2 ^ 32 }
    ensures count { result ≡ operand (location_of temporaries place) }
    ensures few { result ≤ 3 }
{
    let first_word = REGISTERS + temporaries;
    if place < first_word {
        0
    } else if 4 * (place - first_word) < 2048 {
        1
    } else {
        3
    }
}

// The instructions that copy between a register and a place.
fn copy(temporaries: u32, place: u32) -> u32
    requires few { temporaries ≤ 4 }
    requires small { 4 * (place - (registers + temporaries)) < 2 ^ 32 }
    ensures count { result ≡ copy (location_of temporaries place) }
    ensures few { result ≤ 3 }
{
    let first_word = REGISTERS + temporaries;
    if place < first_word || 4 * (place - first_word) < 2048 {
        1
    } else {
        3
    }
}

const fn binary_count(op: Op2) -> u32
    ensures count { result ≡ binary_count op }
    ensures few { result ≤ 2 }
{
    match op {
        Op2::Eq | Op2::Ne => 2,
        _ => 1,
    }
}

const fn unary_count(op: Op1) -> u32
    ensures count { result ≡ unary_count op }
    ensures few { result ≤ 2 }
{
    match op {
        Op1::Zext8 => 1,
        _ => 2,
    }
}

// The instructions of a move from one place to another.
fn move_count(temporaries: u32, to: u32, from: u32) -> u32
    requires few { temporaries ≤ 4 }
    requires to { 4 * (to - (registers + temporaries)) < 2 ^ 32 }
    requires from { 4 * (from - (registers + temporaries)) < 2 ^ 32 }
    ensures count { result ≡ if to == from then 0 else move_count (location_of temporaries to)
        (location_of temporaries from) }
    ensures few { result ≤ 6 }
{
    if to == from {
        0
    } else if to < REGISTERS + temporaries {
        copy(temporaries, from)
    } else {
        operand(temporaries, from) + copy(temporaries, to)
    }
}

impl Function<'_> {
    // The place of a name.
    fn place(&self, name: u32) -> u32
        requires { IsTrue (has_place self.now.places.now name) }
        ensures place { result ≡ slice_index self.now.places.now.of name }
        ensures small { 4 * (result - (registers + self.now.places.now.temporaries)) < 2 ^ 32 }
    {
        let places = self.places;
        places.of[name as usize]
    }

    fn operand(&self, name: u32) -> u32
        requires { IsTrue (has_place self.now.places.now name) }
        ensures count { result ≡ operand (place_of self.now.places.now name) }
        ensures few { result ≤ 3 }
    {
        let places = self.places;
        operand(places.temporaries, self.place(name))
    }

    fn copy(&self, name: u32) -> u32
        requires { IsTrue (has_place self.now.places.now name) }
        ensures count { result ≡ copy (place_of self.now.places.now name) }
        ensures few { result ≤ 3 }
    {
        let places = self.places;
        copy(places.temporaries, self.place(name))
    }

    fn copies(&self, names: &[u32]) -> u32
        requires placed { IsTrue (all_of (has_place self.now.places.now) names.now) }
        requires few { length names.now ≤ 8 }
        ensures count { result ≡ copies self.now.places.now names.now }
        ensures few { result ≤ 24 }
    {
        let mut count = 0;
        for name in names {
            count += self.copy(*name);
        }
        count
    }

    // How many registers the function keeps for its caller.
    fn saved(&self) -> u32
        ensures value { result ≡ saved_of self.now.places.now.count }
        ensures few { result ≤ 11 }
    {
        let places = self.places;
        places.count.min(REGISTERS)
    }

    // The offset of an object from the stack pointer.
    fn offset_of(&self, number: u32) -> u32
        requires { number < length self.now.objects.now }
        ensures { result ≡ object_at self.now.places.now.count self.now.objects.now number }
    {
        self.offsets[number as usize]
    }

    fn address(&self, target: u32, number: u32) -> u32
        requires target { IsTrue (has_place self.now.places.now target) }
        requires number { number < length self.now.objects.now }
        ensures count { result ≡ instr_count self.now.places.now self.now.objects.now
            (linear.object_address target number) }
        ensures few { result ≤ 6 }
    {
        immediate(self.offset_of(number)) + 1 + self.operand(target)
    }

    // The size of an object.
    fn size_of(&self, number: u32) -> u32
        requires { number < length self.now.objects.now }
        ensures size { result ≡ size_of self.now.objects.now number }
        ensures small { result + 3 < 2 ^ 32 }
    {
        let object = &self.objects[number as usize];
        object.size
    }

    fn clear(&self, number: u32) -> u32
        requires { number < length self.now.objects.now }
        ensures count { result ≡ instr_count self.now.places.now self.now.objects.now
            (linear.clear number) }
        ensures few { result ≤ 9 }
    {
        let size = self.size_of(number).next_multiple_of(4);
        immediate(self.offset_of(number)) + immediate(size) + 5
    }

    // The operands and the result of an operation, and so many instructions between them.
    fn with_two(&self, target: u32, left: u32, right: u32, count: u32) -> u32
        requires target { IsTrue (has_place self.now.places.now target) }
        requires left { IsTrue (has_place self.now.places.now left) }
        requires right { IsTrue (has_place self.now.places.now right) }
        requires few { count ≤ 2 }
        ensures count { result ≡ operand (place_of self.now.places.now left) + operand (place_of
            self.now.places.now right) + count + operand (place_of self.now.places.now target) }
        ensures few { result ≤ 11 }
    {
        self.operand(left) + self.operand(right) + count + self.operand(target)
    }

    fn with_one(&self, target: u32, input: u32, count: u32) -> u32
        requires target { IsTrue (has_place self.now.places.now target) }
        requires input { IsTrue (has_place self.now.places.now input) }
        requires few { count ≤ 2 }
        ensures count { result ≡ operand (place_of self.now.places.now input) + count + operand
            (place_of self.now.places.now target) }
        ensures few { result ≤ 8 }
    {
        self.operand(input) + count + self.operand(target)
    }

    fn move_count(&self, target: u32, source: u32) -> u32
        requires target { IsTrue (has_place self.now.places.now target) }
        requires source { IsTrue (has_place self.now.places.now source) }
        ensures count { result ≡ instr_count self.now.places.now self.now.objects.now
            (linear.move target source) }
        ensures few { result ≤ 6 }
    {
        let places = self.places;
        move_count(places.temporaries, self.place(target), self.place(source))
    }

    fn call(&self, target: u32, arguments: &[u32]) -> u32
        requires target { IsTrue (has_place self.now.places.now target) }
        requires arguments { IsTrue (all_of (has_place self.now.places.now) arguments.now) }
        requires few { length arguments.now ≤ 8 }
        ensures count { result ≡ copies self.now.places.now arguments.now + 2 + copy (place_of
            self.now.places.now target) }
        ensures few { result ≤ 29 }
    {
        self.copies(arguments) + 2 + self.copy(target)
    }

    fn instr_count(&self, instr: &Instr) -> u32
        requires placed { IsTrue (all_of (has_place self.now.places.now) (instr_names (instr_of
            instr.now))) }
        requires object { IsTrue (has_its_object (length self.now.objects.now) (instr_of
            instr.now)) }
        requires arguments { IsTrue (has_few_arguments (instr_of instr.now)) }
        ensures count { result ≡ instr_count self.now.places.now self.now.objects.now (instr_of
            instr.now) }
        ensures few { result ≤ 29 }
    {
        match instr {
            Instr::Const { target, word } => immediate(*word) + self.operand(*target),
            Instr::Undef { .. } => 0,
            Instr::ObjectAddress { target, number } => self.address(*target, *number),
            Instr::GlobalAddress { target, .. } => 2 + self.operand(*target),
            Instr::Binary {
                op,
                target,
                left,
                right,
            } => self.with_two(*target, *left, *right, binary_count(*op)),
            Instr::Unary { op, target, input } => {
                self.with_one(*target, *input, unary_count(*op))
            }
            Instr::Load {
                target,
                address,
                ..
            } => self.with_one(*target, *address, 1),
            Instr::Store { address, value, .. } => {
                self.operand(*address) + self.operand(*value) + 1
            }
            Instr::Clear { number } => self.clear(*number),
            Instr::EqualPointers {
                target,
                left,
                right,
            } => self.with_two(*target, *left, *right, 2),
            Instr::Move { target, source } => self.move_count(*target, *source),
            Instr::Call {
                target,
                arguments,
                ..
            } => self.call(*target, arguments),
            Instr::Put { byte } => self.copy(*byte) + 2,
            Instr::Get { target } => 2 + self.copy(*target),
            Instr::Exit { status } => self.copy(*status) + 2,
        }
    }

    fn enter(&self, params: &[u32]) -> u32
        requires placed { IsTrue (all_of (has_place self.now.places.now) params.now) }
        requires few { length params.now ≤ 8 }
        ensures count { result ≡ line_count self.now.places.now self.now.objects.now
            (lines.enter params.now) }
        ensures few { result ≤ 43 }
    {
        immediate(self.size) + 6 + self.saved() + self.copies(params)
    }

    fn leave(&self, value: u32) -> u32
        requires { IsTrue (has_place self.now.places.now value) }
        ensures count { result ≡ line_count self.now.places.now self.now.objects.now
            (lines.leave value) }
        ensures few { result ≤ 20 }
    {
        self.copy(value) + immediate(self.size) + 4 + self.saved()
    }

    fn line_count(&self, line: &Line) -> u32
        requires placed { IsTrue (names_have_places self.now.places.now (line_of line.now)) }
        requires object { IsTrue (does (has_its_object (length self.now.objects.now)) (line_of
            line.now)) }
        requires params { IsTrue (has_few_params (line_of line.now)) }
        requires arguments { IsTrue (does has_few_arguments (line_of line.now)) }
        ensures count { result ≡ line_count self.now.places.now self.now.objects.now (line_of
            line.now) }
        ensures few { result ≤ 43 }
    {
        match line {
            Line::Enter { params } => self.enter(params),
            Line::Leave { value } => self.leave(*value),
            Line::Done { instr } => self.instr_count(instr),
            Line::BranchNotZero { predicate, .. } => self.operand(*predicate) + 2,
            Line::BranchZero { predicate, .. } => self.operand(*predicate) + 2,
            Line::BranchEqual {
                predicate,
                number,
                ..
            } => self.operand(*predicate) + immediate(*number) + 2,
            Line::Jump { .. } => 1,
            Line::Label { .. } => 0,
        }
    }
}

/// The bytes of a line's items.
#[tactic(auto, using(crate::proofs::SizeLemmas::line_bytes))]
pub fn line_size(function: &Function, line: &Line) -> u32
    requires placed { IsTrue (names_have_places function.now.places.now (line_of line.now)) }
    requires object { IsTrue (does (has_its_object (length function.now.objects.now)) (line_of
        line.now)) }
    requires params { IsTrue (has_few_params (line_of line.now)) }
    requires arguments { IsTrue (does has_few_arguments (line_of line.now)) }
    ensures size { result ≡ items_size (line_items function.now.places.now
        function.now.objects.now (line_of line.now)) }
    ensures few { result ≤ 172 }
{
    4 * function.line_count(line)
}
