//! Which Gamma takes a node's outputs.

ghost use Rattle.std.specs.Prelude.{◌≡◌, ◌==◌, ℕ, [], OnOk, IfOk, if◌then◌else◌};
ghost use Rattle.g_graph.specs.Plain.{id_of, inputs_in};
ghost use Rattle.r_edit.specs.Uses.{is_output_of};
ghost use Rattle.r_pull.specs.declared.users.User.TheVariants.{Nobody, Entries, Others};
ghost use Rattle.r_pull.specs.Users.{both_use, used_by, is_gamma, gamma_user, node_user, user_in, AreUsers, carried_with, user_after};

use base::NoMemory;
use g_graph::{Node, Op, Origin};
use indexmap::IndexMap;
use std::alloc::Global;

/// What uses outputs of a node: nothing, entries of the Gamma of this place among the nodes that
/// are written, or other nodes or results.
#[derive(Clone, Copy)]
pub enum User {
    Nobody,
    Entries(usize),
    Others,
}

/// What uses the outputs of nodes of a region, by the number of the node.
#[derive(Drop)]
pub struct Users {
    users: IndexMap<u32, User>,
}

impl Users {
    /// No node is written.
    pub fn of_results(alloc: Global, results: &[Origin]) -> Result<Users, NoMemory>
        ensures { IfOk result (λ users. AreUsers users results.now []) }
    {
        let mut users = Users {
            users: IndexMap::new(alloc),
        };
        users.note_all(results, User::Others)?;
        Ok(users)
    }

    /// What uses outputs of the node of this number.
    pub fn user_of(&self, node: u32) -> User
        ensures { result ≡ user_in self.now node }
    {
        match self.users.get(&node) {
            Some(user) => *user,
            None => User::Nobody,
        }
    }

    /// The node has this place among those that are written.
    pub fn note_node(&mut self, node: &Node, place: usize) -> Result<(), NoMemory>
        ensures { OnOk result ((n : ℕ) → user_in self.new n ≡
            both_use (user_in self.old n) (node_user n place node.now)) }
    {
        if is_gamma(node.op) {
            self.note_gamma(node.inputs.as_slice(), place)
        } else {
            self.note_all(node.inputs.as_slice(), User::Others)
        }
    }

    /// The node moved into the Gamma of this place, with so many copies.
    pub fn note_move(&mut self, node: &Node, place: usize, copies: u32) -> Result<(), NoMemory>
        ensures { OnOk result ((n : ℕ) → user_in self.new n ≡
            user_after (id_of node.now) place (carried_with copies (inputs_in node.now)) n (user_in self.old n)) }
    {
        self.set(node.id, User::Nobody)?;
        if copies > 0 {
            self.note_all(node.inputs.as_slice(), User::Entries(place))?;
        }
        Ok(())
    }

    // The inputs of the Gamma of this place.
    fn note_gamma(&mut self, inputs: &[Origin], place: usize) -> Result<(), NoMemory>
        ensures { OnOk result ((n : ℕ) → user_in self.new n ≡
            both_use (user_in self.old n) (gamma_user n place inputs.now)) }
    {
        match inputs.split_first() {
            Some((predicate, entries)) => {
                self.note(*predicate, User::Others)?;
                self.note_all(entries, User::Entries(place))
            }
            None => Ok(()),
        }
    }

    // These origins are used so.
    fn note_all(&mut self, origins: &[Origin], user: User) -> Result<(), NoMemory>
        ensures { OnOk result ((n : ℕ) → user_in self.new n ≡
            both_use (user_in self.old n) (used_by n user origins.now)) }
    {
        for origin in origins {
            self.note(*origin, user)?;
        }
        Ok(())
    }

    fn note(&mut self, origin: Origin, user: User) -> Result<(), NoMemory>
        ensures { OnOk result ((n : ℕ) → user_in self.new n ≡
            both_use (user_in self.old n) (if is_output_of n origin then user else Nobody)) }
    {
        match origin {
            Origin::Arg(_) => Ok(()),
            Origin::Out { node, .. } => {
                let now = both_use(self.user_of(node), user);
                self.set(node, now)
            }
        }
    }

    fn set(&mut self, node: u32, user: User) -> Result<(), NoMemory>
        ensures { OnOk result ((n : ℕ) → user_in self.new n ≡
            (if n == node then user else user_in self.old n)) }
    {
        self.users.insert(node, user)?;
        Ok(())
    }
}

fn is_gamma(op: Op) -> bool
    ensures { result ≡ is_gamma op }
{
    match op {
        Op::Gamma => true,
        _ => false,
    }
}

// The one and the other.
fn both_use(one: User, other: User) -> User
    ensures { result ≡ both_use one other }
{
    match (one, other) {
        (User::Nobody, _) => other,
        (User::Entries(_), User::Nobody) => one,
        (User::Entries(j), User::Entries(k)) => if j == k { one } else { User::Others },
        (User::Entries(_), User::Others) => User::Others,
        (User::Others, _) => User::Others,
    }
}
