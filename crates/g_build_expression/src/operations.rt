//! The nodes of operations on what operands give.

ghost use Rattle.std.specs.Prelude.{◌≡◌, [], OnOk, IfOk};
ghost use Rattle.g_build_def.specs.Operations.{const_made, undef_made, local_made, delta_made, bin_made, un_made, load_made, ptr_eq_made, converted_made, extended_made, read_made, is_zero_made, is_not_zero_made, is_null_made, not_made, condition_made, less_op, equal_made, not_equal_made, compared_made, moved_made, difference_made, at_offset_made};
ghost use Rattle.g_build_def.specs.Expressions.{unary_made, binary_made, compound_made, stepped_made};
ghost use Rattle.g_build_def.specs.Writer.{bind};
ghost use Rattle.c_typed.specs.Objects.{access_width};
ghost use Rattle.c_typed.specs.WellTyped.{int, step_op};
ghost use Rattle.g_build_expression.specs.Work.{made};

use crate::builder::Builder;
use base::NoMemory;
use c_type::{CType, Scalar, TypeForm};
use c_typed::{BinaryOp, CompoundOp, IncDec, Relation, UnaryOp};
use g_graph::{Op, Origin};
use val_core::{Op1, Op2};

/// The bytes of a scalar object: 1, 2 or 4.
pub fn access_width(t: &CType) -> u8
    ensures { result ≡ access_width t.now }
{
    match &t.form {
        TypeForm::Scalar(Scalar::Char | Scalar::SignedChar | Scalar::UnsignedChar) => 1,
        TypeForm::Scalar(Scalar::Short | Scalar::UnsignedShort) => 2,
        _ => 4,
    }
}

// The operation of `<` on operands of this type.
fn less_op(t: &CType) -> Op2
    ensures { result ≡ less_op t.now }
{
    match &t.form {
        TypeForm::Scalar(Scalar::Int) => Op2::Slt,
        _ => Op2::Sltu,
    }
}

impl Builder {
    /// A constant.
    pub fn constant(&mut self, word: u32) -> Result<Origin, NoMemory>
        ensures work { OnOk result (self.new ≡ made self.old (const_made word self.old.point)) }
        ensures value { IfOk result (λ v. v ≡ (const_made word self.old.point).value) }
    {
        self.value(Op::Const(word), &[])
    }

    /// A value without meaning.
    pub fn undefined(&mut self) -> Result<Origin, NoMemory>
        ensures work { OnOk result (self.new ≡ made self.old (undef_made self.old.point)) }
        ensures value { IfOk result (λ v. v ≡ (undef_made self.old.point).value) }
    {
        self.value(Op::Undef, &[])
    }

    /// The address of an object of the function.
    pub fn local(&mut self, object: u32) -> Result<Origin, NoMemory>
        ensures work { OnOk result (self.new ≡ made self.old (local_made object self.old.point)) }
        ensures value { IfOk result (λ v. v ≡ (local_made object self.old.point).value) }
    {
        self.value(Op::Local(object), &[])
    }

    /// The address of a global.
    pub fn delta(&mut self, global: u32) -> Result<Origin, NoMemory>
        ensures work { OnOk result (self.new ≡ made self.old (delta_made global self.old.point)) }
        ensures value { IfOk result (λ v. v ≡ (delta_made global self.old.point).value) }
    {
        self.value(Op::Delta(global), &[])
    }

    /// An operation on two values.
    pub fn bin(&mut self, op: Op2, a: Origin, b: Origin) -> Result<Origin, NoMemory>
        ensures work { OnOk result (self.new ≡ made self.old (bin_made op a b self.old.point)) }
        ensures value { IfOk result (λ v. v ≡ (bin_made op a b self.old.point).value) }
    {
        self.value(Op::Bin(op), &[a, b])
    }

    fn un(&mut self, op: Op1, a: Origin) -> Result<Origin, NoMemory>
        ensures work { OnOk result (self.new ≡ made self.old (un_made op a self.old.point)) }
        ensures value { IfOk result (λ v. v ≡ (un_made op a self.old.point).value) }
    {
        self.value(Op::Un(op), &[a])
    }

    fn load(&mut self, width: u8, a: Origin) -> Result<Origin, NoMemory>
        ensures work { OnOk result (self.new ≡ made self.old (load_made width a self.old.point)) }
        ensures value { IfOk result (λ v. v ≡ (load_made width a self.old.point).value) }
    {
        let memory = self.memory();
        self.value(Op::Load(width), &[a, memory])
    }

    fn ptr_eq(&mut self, a: Origin, b: Origin) -> Result<Origin, NoMemory>
        ensures work { OnOk result (self.new ≡ made self.old (ptr_eq_made a b self.old.point)) }
        ensures value { IfOk result (λ v. v ≡ (ptr_eq_made a b self.old.point).value) }
    {
        let memory = self.memory();
        self.value(Op::PtrEq, &[a, b, memory])
    }

    /// A conversion of the value to a type.
    pub fn converted(&mut self, t: &CType, value: Origin) -> Result<Origin, NoMemory>
        ensures work { OnOk result
            (self.new ≡ made self.old (converted_made t.now value self.old.point)) }
        ensures value { IfOk result
            (λ v. v ≡ (converted_made t.now value self.old.point).value) }
    {
        match &t.form {
            TypeForm::Scalar(Scalar::Char | Scalar::UnsignedChar) => self.un(Op1::Zext8, value),
            TypeForm::Scalar(Scalar::SignedChar) => self.un(Op1::Sext8, value),
            TypeForm::Scalar(Scalar::Short) => self.un(Op1::Sext16, value),
            TypeForm::Scalar(Scalar::UnsignedShort) => self.un(Op1::Zext16, value),
            _ => Ok(value),
        }
    }

    fn extended(&mut self, t: &CType, value: Origin) -> Result<Origin, NoMemory>
        ensures work { OnOk result
            (self.new ≡ made self.old (extended_made t.now value self.old.point)) }
        ensures value { IfOk result (λ v. v ≡ (extended_made t.now value self.old.point).value) }
    {
        match &t.form {
            TypeForm::Scalar(Scalar::SignedChar) => self.un(Op1::Sext8, value),
            TypeForm::Scalar(Scalar::Short) => self.un(Op1::Sext16, value),
            _ => Ok(value),
        }
    }

    /// The read of an object of this type.
    pub fn read(&mut self, t: &CType, address: Origin) -> Result<Origin, NoMemory>
        ensures work { OnOk result
            (self.new ≡ made self.old (read_made t.now address self.old.point)) }
        ensures value { IfOk result (λ v. v ≡ (read_made t.now address self.old.point).value) }
    {
        let loaded = self.load(access_width(t), address)?;
        self.extended(t, loaded)
    }

    /// Whether the value is 0.
    pub fn is_zero(&mut self, value: Origin) -> Result<Origin, NoMemory>
        ensures work { OnOk result (self.new ≡ made self.old (is_zero_made value self.old.point)) }
        ensures value { IfOk result (λ v. v ≡ (is_zero_made value self.old.point).value) }
    {
        let zero = self.constant(0)?;
        self.bin(Op2::Eq, value, zero)
    }

    /// Whether the value is not 0.
    pub fn is_not_zero(&mut self, value: Origin) -> Result<Origin, NoMemory>
        ensures work { OnOk result
            (self.new ≡ made self.old (is_not_zero_made value self.old.point)) }
        ensures value { IfOk result (λ v. v ≡ (is_not_zero_made value self.old.point).value) }
    {
        let zero = self.constant(0)?;
        self.bin(Op2::Ne, value, zero)
    }

    fn is_null(&mut self, value: Origin) -> Result<Origin, NoMemory>
        ensures work { OnOk result (self.new ≡ made self.old (is_null_made value self.old.point)) }
        ensures value { IfOk result (λ v. v ≡ (is_null_made value self.old.point).value) }
    {
        let zero = self.constant(0)?;
        self.ptr_eq(value, zero)
    }

    fn not(&mut self, t: &CType, value: Origin) -> Result<Origin, NoMemory>
        ensures work { OnOk result
            (self.new ≡ made self.old (not_made t.now value self.old.point)) }
        ensures value { IfOk result (λ v. v ≡ (not_made t.now value self.old.point).value) }
    {
        match &t.form {
            TypeForm::Pointer(_) => self.is_null(value),
            _ => self.is_zero(value),
        }
    }

    fn is_no_null(&mut self, value: Origin) -> Result<Origin, NoMemory>
        ensures work { OnOk result
            (self.new ≡ made self.old (bind (is_null_made value self.old.point) is_zero_made)) }
        ensures value { IfOk result
            (λ v. v ≡ (bind (is_null_made value self.old.point) is_zero_made).value) }
    {
        let null = self.is_null(value)?;
        self.is_zero(null)
    }

    /// The value, which has this type, as a condition.
    pub fn condition(&mut self, t: &CType, value: Origin) -> Result<Origin, NoMemory>
        ensures work { OnOk result
            (self.new ≡ made self.old (condition_made t.now value self.old.point)) }
        ensures value { IfOk result
            (λ v. v ≡ (condition_made t.now value self.old.point).value) }
    {
        match &t.form {
            TypeForm::Pointer(_) => self.is_no_null(value),
            _ => Ok(value),
        }
    }

    fn is_equal(&mut self, t: &CType, a: Origin, b: Origin) -> Result<Origin, NoMemory>
        ensures work { OnOk result
            (self.new ≡ made self.old (equal_made t.now a b self.old.point)) }
        ensures value { IfOk result (λ v. v ≡ (equal_made t.now a b self.old.point).value) }
    {
        match &t.form {
            TypeForm::Pointer(_) => self.ptr_eq(a, b),
            _ => self.bin(Op2::Eq, a, b),
        }
    }

    fn are_other_pointers(&mut self, a: Origin, b: Origin) -> Result<Origin, NoMemory>
        ensures work { OnOk result
            (self.new ≡ made self.old (bind (ptr_eq_made a b self.old.point) is_zero_made)) }
        ensures value { IfOk result
            (λ v. v ≡ (bind (ptr_eq_made a b self.old.point) is_zero_made).value) }
    {
        let equal = self.ptr_eq(a, b)?;
        self.is_zero(equal)
    }

    fn is_not_equal(&mut self, t: &CType, a: Origin, b: Origin) -> Result<Origin, NoMemory>
        ensures work { OnOk result
            (self.new ≡ made self.old (not_equal_made t.now a b self.old.point)) }
        ensures value { IfOk result (λ v. v ≡ (not_equal_made t.now a b self.old.point).value) }
    {
        match &t.form {
            TypeForm::Pointer(_) => self.are_other_pointers(a, b),
            _ => self.bin(Op2::Ne, a, b),
        }
    }

    fn less(&mut self, t: &CType, a: Origin, b: Origin) -> Result<Origin, NoMemory>
        ensures work { OnOk result
            (self.new ≡ made self.old (bin_made (less_op t.now) a b self.old.point)) }
        ensures value { IfOk result
            (λ v. v ≡ (bin_made (less_op t.now) a b self.old.point).value) }
    {
        self.bin(less_op(t), a, b)
    }

    fn is_not_less(&mut self, t: &CType, a: Origin, b: Origin) -> Result<Origin, NoMemory>
        ensures work { OnOk result (self.new ≡ made self.old
            (bind (bin_made (less_op t.now) a b self.old.point) is_zero_made)) }
        ensures value { IfOk result
            (λ v. v ≡ (bind (bin_made (less_op t.now) a b self.old.point) is_zero_made).value) }
    {
        let less = self.less(t, a, b)?;
        self.is_zero(less)
    }

    fn compared(
        &mut self,
        relation: Relation,
        t: &CType,
        a: Origin,
        b: Origin,
    ) -> Result<Origin, NoMemory>
        ensures work { OnOk result
            (self.new ≡ made self.old (compared_made relation t.now a b self.old.point)) }
        ensures value { IfOk result
            (λ v. v ≡ (compared_made relation t.now a b self.old.point).value) }
    {
        match relation {
            Relation::Less => self.less(t, a, b),
            Relation::Greater => self.less(t, b, a),
            Relation::LessEqual => self.is_not_less(t, b, a),
            Relation::GreaterEqual => self.is_not_less(t, a, b),
            Relation::Equal => self.is_equal(t, a, b),
            Relation::NotEqual => self.is_not_equal(t, a, b),
        }
    }

    // The pointer moved up or down by an integer, in elements of so many bytes.
    fn moved(
        &mut self,
        op: Op2,
        pointer: Origin,
        integer: Origin,
        bytes: u32,
    ) -> Result<Origin, NoMemory>
        ensures work { OnOk result
            (self.new ≡ made self.old (moved_made op pointer integer bytes self.old.point)) }
        ensures value { IfOk result
            (λ v. v ≡ (moved_made op pointer integer bytes self.old.point).value) }
    {
        let size = self.constant(bytes)?;
        let product = self.bin(Op2::Mul, integer, size)?;
        self.bin(op, pointer, product)
    }

    fn difference(&mut self, a: Origin, b: Origin, bytes: u32) -> Result<Origin, NoMemory>
        ensures work { OnOk result
            (self.new ≡ made self.old (difference_made a b bytes self.old.point)) }
        ensures value { IfOk result (λ v. v ≡ (difference_made a b bytes self.old.point).value) }
    {
        let distance = self.bin(Op2::Sub, a, b)?;
        let size = self.constant(bytes)?;
        self.bin(Op2::Div, distance, size)
    }

    /// The address so many bytes further.
    pub fn at_offset(&mut self, address: Origin, offset: u32) -> Result<Origin, NoMemory>
        ensures work { OnOk result
            (self.new ≡ made self.old (at_offset_made address offset self.old.point)) }
        ensures value { IfOk result
            (λ v. v ≡ (at_offset_made address offset self.old.point).value) }
    {
        let bytes = self.constant(offset)?;
        self.bin(Op2::Add, address, bytes)
    }

    fn negated(&mut self, value: Origin) -> Result<Origin, NoMemory>
        ensures work { OnOk result
            (self.new ≡ made self.old (unary_made UnaryOp.Negate int int value self.old.point)) }
        ensures value { IfOk result
            (λ v. v ≡ (unary_made UnaryOp.Negate int int value self.old.point).value) }
    {
        let zero = self.constant(0)?;
        self.bin(Op2::Sub, zero, value)
    }

    fn complemented(&mut self, value: Origin) -> Result<Origin, NoMemory>
        ensures work { OnOk result (self.new ≡
            made self.old (unary_made UnaryOp.Complement int int value self.old.point)) }
        ensures value { IfOk result
            (λ v. v ≡ (unary_made UnaryOp.Complement int int value self.old.point).value) }
    {
        let ones = self.constant(u32::MAX)?;
        self.bin(Op2::Xor, value, ones)
    }

    fn written(&mut self, value: Origin) -> Result<Origin, NoMemory>
        ensures work { OnOk result
            (self.new ≡ made self.old (unary_made UnaryOp.Put int int value self.old.point)) }
        ensures value { IfOk result
            (λ v. v ≡ (unary_made UnaryOp.Put int int value self.old.point).value) }
    {
        let put = self.put(value)?;
        self.un(Op1::Zext8, put)
    }

    /// An operation of this type on an operand of another type.
    pub fn unary(
        &mut self,
        op: UnaryOp,
        t: &CType,
        operand: &CType,
        value: Origin,
    ) -> Result<Origin, NoMemory>
        ensures work { OnOk result
            (self.new ≡ made self.old (unary_made op t.now operand.now value self.old.point)) }
        ensures value { IfOk result
            (λ v. v ≡ (unary_made op t.now operand.now value self.old.point).value) }
    {
        match op {
            UnaryOp::Convert => self.converted(t, value),
            UnaryOp::Discard => Ok(value),
            UnaryOp::Negate => self.negated(value),
            UnaryOp::Complement => self.complemented(value),
            UnaryOp::LogicalNot => self.not(operand, value),
            UnaryOp::Put => self.written(value),
            UnaryOp::Exit => self.exit(value),
        }
    }

    /// An operation on two operands, the left one of this type.
    pub fn binary(
        &mut self,
        op: BinaryOp,
        t: &CType,
        a: Origin,
        b: Origin,
    ) -> Result<Origin, NoMemory>
        ensures work { OnOk result
            (self.new ≡ made self.old (binary_made op t.now a b self.old.point)) }
        ensures value { IfOk result
            (λ v. v ≡ (binary_made op t.now a b self.old.point).value) }
    {
        match op {
            BinaryOp::Arithmetic(op) => self.bin(op, a, b),
            BinaryOp::Compare(relation) => self.compared(relation, t, a, b),
            BinaryOp::PointerPlus(bytes) => self.moved(Op2::Add, a, b, bytes),
            BinaryOp::IntegerPlus(bytes) => self.moved(Op2::Add, b, a, bytes),
            BinaryOp::PointerMinus(bytes) => self.moved(Op2::Sub, a, b, bytes),
            BinaryOp::PointerDifference(bytes) => self.difference(a, b, bytes),
        }
    }

    /// The operation of a compound assignment on the old value and the operand.
    pub fn compound(&mut self, op: CompoundOp, old: Origin, b: Origin) -> Result<Origin, NoMemory>
        ensures work { OnOk result
            (self.new ≡ made self.old (compound_made op old b self.old.point)) }
        ensures value { IfOk result (λ v. v ≡ (compound_made op old b self.old.point).value) }
    {
        match op {
            CompoundOp::Arithmetic { op, .. } => self.bin(op, old, b),
            CompoundOp::PointerPlus(bytes) => self.moved(Op2::Add, old, b, bytes),
            CompoundOp::PointerMinus(bytes) => self.moved(Op2::Sub, old, b, bytes),
        }
    }

    /// The old value, one step up or down.
    pub fn stepped(&mut self, step: &IncDec, old: Origin) -> Result<Origin, NoMemory>
        ensures work { OnOk result
            (self.new ≡ made self.old (stepped_made step.now old self.old.point)) }
        ensures value { IfOk result (λ v. v ≡ (stepped_made step.now old self.old.point).value) }
    {
        let by = self.constant(step.by)?;
        self.bin(step_op(step.up), old, by)
    }
}

fn step_op(up: bool) -> Op2
    ensures { result ≡ step_op up }
{
    if up { Op2::Add } else { Op2::Sub }
}
