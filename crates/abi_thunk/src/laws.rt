//! Adjustments lead to the target.

ghost use Rattle.std.specs.Prelude.{ℤ, Option};
ghost use Rattle.cxx_hierarchy.specs.declared.records.ClassId.{ClassId};
ghost use Rattle.cxx_subobject.specs.declared.Subobject.{Subobject};
ghost use Rattle.abi_sound.specs.Places.{Places};
ghost use Rattle.abi_slots.specs.Groups.{this_adjust, return_adjust};
ghost use Rattle.abi_thunk.specs.Leads.{AdjustmentLeads, ReturnLeads};

/// The place of a subobject and the adjustment of `this` are the place of the other subobject, or of the virtual base whose
/// vcall word leads on; and None comes where both have one place. The same of a result and its base subobject.
pub fn adjustments_lead()
    ensures this { (l : Places) (c : ClassId) (from to : Subobject) (vcall : Option ℤ) → AdjustmentLeads l c from to vcall (this_adjust l c from to vcall) }
    ensures returns { (l : Places) (c : ClassId) (path : Subobject) (vbase : Option ℤ) → ReturnLeads l c path vbase (return_adjust l c path vbase) }
{}
