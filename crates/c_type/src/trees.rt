//! C types as trees.

use crate::scalar::Scalar;
use std::marker::Model;

/// A type (ISO/IEC 9899:2011, 6.2.5); contracts see its tree.
#[cycle(ctype)]
#[derive(Debug, Drop)]
pub struct CType {
    pub form: TypeForm,
}

/// The form of a type.
#[cycle(ctype)]
#[derive(Debug, Drop)]
pub enum TypeForm {
    Void,
    Scalar(Scalar),
    Pointer(Box<CType>),
    /// An array, and how many elements it has.
    Array(Box<CType>, u32),
    /// The struct of this tag.
    Struct(u32),
}

impl Model for CType {
    ghost use Rattle.c_type.specs.Trees.{TypeTree, tree_height};
    ghost use Rattle.c_type.specs.TreeEncoding.{coded_tree};

    ghost Value = { TypeTree };

    ghost coded = { coded_tree };

    ghost use Rattle.c_type.specs.TreeView.{tree_of};

    ghost view = { λ t. tree_of t.form };

    ghost size = { tree_height };

    ghost use Rattle.c_type.specs.TreeHeight.{form_height};

    ghost size_decreases = { λ a h. form_height a.form };
}
