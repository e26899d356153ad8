//! The types of globals and of programs.

use crate::{Lambda, Link};
use base::Name;
use std::marker::Model;
use val_core::Leaf;

/// A global: its first bytes, with zeros where a link stands, its links in order of offset, its
/// leaves, and whether it never changes. Contracts see it as a plain record.
#[derive(Debug, Drop)]
pub struct Delta {
    pub bytes: Vec<u8>,
    pub links: Vec<Link>,
    pub leaves: Vec<Leaf>,
    pub fixed: bool,
}

impl Model for Delta {
    ghost use Rattle.g_graph.specs.Plain.{PlainDelta};
    ghost use Rattle.g_graph.specs.Codes.{coded_delta};

    ghost Value = { PlainDelta };

    ghost coded = { coded_delta };

    ghost view = { λ d. record {
      bytes = d.bytes.items;
      links = d.links.items;
      leaves = d.leaves.items;
      fixed = d.fixed;
    } };
}

/// A program: its functions, its globals, and the functions' names in the order of the source.
/// Contracts see it as a plain record.
#[derive(Debug, Drop)]
pub struct Omega {
    pub lambdas: Vec<Lambda>,
    pub deltas: Vec<Delta>,
    pub names: Vec<Name>,
}

impl Model for Omega {
    ghost use Rattle.g_graph.specs.Plain.{PlainOmega};
    ghost use Rattle.g_graph.specs.Codes.{coded_omega};

    ghost Value = { PlainOmega };

    ghost coded = { coded_omega };

    ghost view = { λ o. record {
      lambdas = o.lambdas.items;
      deltas = o.deltas.items;
      names = o.names.items;
    } };
}
