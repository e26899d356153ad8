//! The types of functions and of their memory objects.

use crate::Region;
use std::marker::Model;
use val_core::Leaf;

/// A memory object of a lambda: its size in bytes, and its leaves in order of offset. Contracts see
/// both as a plain record.
#[derive(Debug, Drop)]
pub struct Object {
    pub size: u32,
    pub leaves: Vec<Leaf>,
}

impl Model for Object {
    ghost use Rattle.g_graph.specs.Plain.{PlainObject};
    ghost use Rattle.g_graph.specs.Codes.{coded_object};

    ghost Value = { PlainObject };

    ghost coded = { coded_object };

    ghost view = { λ o. record { size = o.size; leaves = o.leaves.items } };
}

/// A function: its number in the source, how many parameters it has, its memory objects, its body,
/// and a number above those of all its nodes, from which new nodes are numbered. Contracts see it
/// as a plain record.
#[derive(Debug, Drop)]
pub struct Lambda {
    pub number: u32,
    pub params: u32,
    pub objects: Vec<Object>,
    pub body: Region,
    pub next: u32,
}

impl Model for Lambda {
    ghost use Rattle.g_graph.specs.Plain.{PlainLambda};
    ghost use Rattle.g_graph.specs.Codes.{coded_lambda};

    ghost Value = { PlainLambda };

    ghost coded = { coded_lambda };

    ghost view = { λ l. record {
      number = l.number;
      params = l.params;
      objects = l.objects.items;
      body = l.body;
      next = l.next;
    } };
}
