//! Places, which designate objects: a value variable, or what stands at an address.

ghost use Rattle.std.specs.Prelude.{◌≡◌, OnOk, IfOk};
ghost use Rattle.g_build_def.specs.Writer.{variable_at, slot_origin};
ghost use Rattle.g_build_def.specs.Places.{slot_spot, member_spot, spot_address, spot_read, spot_written};
ghost use Rattle.g_build_expression.specs.SlotViews.{spot_of};
ghost use Rattle.g_build_expression.specs.Work.{made};

use crate::builder::Builder;
use crate::operations::access_width;
use crate::variables::{InScope, value_origin};
use base::NoMemory;
use c_type::CType;
use g_graph::Origin;

/// What a place is once its address is made.
#[derive(Clone, Copy)]
pub enum Spot {
    InSlot(u32),
    AtAddress(Origin),
}

impl Builder {
    /// The variable at a slot, as a place.
    #[tactic(auto, using(crate::proofs::lemmas::Made::made_given))]
    pub fn slot_spot(&mut self, slot: u32) -> Result<Spot, NoMemory>
        ensures work { OnOk result (self.new ≡ made self.old
            (slot_spot slot (variable_at self.old.point.carried.variables slot) self.old.point)) }
        ensures value { IfOk result (λ v. spot_of v ≡
            (slot_spot slot (variable_at self.old.point.carried.variables slot)
            self.old.point).value) }
    {
        match self.variable(slot) {
            Some(InScope::Object(number)) => {
                let address = self.local(number)?;
                Ok(Spot::AtAddress(address))
            }
            Some(InScope::Held(_)) => Ok(Spot::InSlot(slot)),
            Some(InScope::Hidden(_)) => Ok(Spot::InSlot(slot)),
            None => Ok(Spot::InSlot(slot)),
        }
    }

    /// A member of a place, at an offset in bytes.
    #[tactic(auto, using(crate::proofs::lemmas::Made::made_given))]
    pub fn member_spot(&mut self, whole: Spot, offset: u32) -> Result<Spot, NoMemory>
        ensures work { OnOk result
            (self.new ≡ made self.old (member_spot (spot_of whole) offset self.old.point)) }
        ensures value { IfOk result
            (λ v. spot_of v ≡ (member_spot (spot_of whole) offset self.old.point).value) }
    {
        match whole {
            Spot::InSlot(slot) => Ok(Spot::InSlot(slot)),
            Spot::AtAddress(address) => {
                let address = self.at_offset(address, offset)?;
                Ok(Spot::AtAddress(address))
            }
        }
    }

    // The origin of the value variable at a slot.
    fn slot_value(&self, slot: u32) -> Origin
        ensures { result ≡ slot_origin (variable_at self.now.point.carried.variables slot) }
    {
        match self.variable(slot) {
            Some(variable) => value_origin(variable),
            None => Origin::Arg(0),
        }
    }

    /// The address of a place.
    pub fn spot_address(&self, spot: Spot) -> Origin
        ensures { result ≡ (spot_address (spot_of spot) self.now.point).value }
    {
        match spot {
            Spot::InSlot(slot) => self.slot_value(slot),
            Spot::AtAddress(address) => address,
        }
    }

    /// The read of a place of this type.
    #[tactic(auto, using(crate::proofs::lemmas::Made::made_given))]
    pub fn spot_read(&mut self, t: &CType, spot: Spot) -> Result<Origin, NoMemory>
        ensures work { OnOk result
            (self.new ≡ made self.old (spot_read t.now (spot_of spot) self.old.point)) }
        ensures value { IfOk result
            (λ v. v ≡ (spot_read t.now (spot_of spot) self.old.point).value) }
    {
        match spot {
            Spot::InSlot(slot) => Ok(self.slot_value(slot)),
            Spot::AtAddress(address) => self.read(t, address),
        }
    }

    /// The write of a place of this type.
    #[tactic(auto, using(crate::proofs::lemmas::Made::moved_made))]
    pub fn spot_write(&mut self, t: &CType, spot: Spot, value: Origin) -> Result<Origin, NoMemory>
        ensures work { OnOk result (self.new ≡
            made self.old (spot_written t.now (spot_of spot) value self.old.point)) }
        ensures value { IfOk result
            (λ v. v ≡ (spot_written t.now (spot_of spot) value self.old.point).value) }
    {
        match spot {
            Spot::InSlot(slot) => {
                self.set_variable(slot, value);
                Ok(value)
            }
            Spot::AtAddress(address) => self.store(access_width(t), address, value),
        }
    }
}
