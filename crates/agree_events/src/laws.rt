//! The laws of events of plans. The functions do nothing: their contracts are what they say.

ghost use Rattle.std.specs.Prelude.{◌≡◌, ℕ, false, List, [], ◌∷◌, ◌++◌, length};
ghost use Rattle.cxx_hierarchy.specs.declared.records.ClassId.{ClassId};
ghost use Rattle.cxx_hierarchy.specs.Hierarchies.{IsHierarchy};
ghost use Rattle.cxx_subobject.specs.Locations.{ObjectPart};
ghost use Rattle.path_plan.specs.Phases.{Phases};
ghost use Rattle.path_plan.specs.declared.form.Form.{Form};
ghost use Rattle.path_plan.specs.declared.form.Form.TheVariants.{InFull};
ghost use Rattle.path_plan.specs.Whole.{whole_part, construction, destruction, IsNew, IsSameBut};
ghost use Rattle.path_model.specs.States.{plan_bodies};
ghost use Rattle.code_blocks.specs.Blocks.{items, behind_body};
ghost use Rattle.code_blocks.specs.Items.{Item, Does, event_of};
ghost use Rattle.code_blocks.specs.Lowered.{IsEnd};
ghost use Rattle.code_blocks.specs.declared.items.Kind.{Kind};
ghost use Rattle.code_blocks.specs.declared.items.Kind.TheVariants.{AtBody, AtDone};
ghost use Rattle.code_ops.specs.Setups.{Setup};
ghost use Rattle.code_ops.specs.declared.routines.Course.{Course};
ghost use Rattle.code_ops.specs.declared.routines.Course.TheVariants.{Constructs, Destroys, Deletes};
ghost use Rattle.agree_relation.specs.Worlds.{World, world_classes};
ghost use Rattle.agree_relation.specs.Goings.{Going, going, at_left, opened_goings, course_events, events_of, events_left, ArePlanned};
ghost use Rattle.agree_relation.specs.Frames.{PlaceNumbers, awaits_body, Behind};
ghost use Rattle.agree_events.specs.EventLaws.{PartsGoOn, NewObjectsStand, EventsKeepColumns, PlanBlocksAgree, PlanBlocksStand, BodiesRunInPlans, ConstructorBodiesClose, DestructorBodiesClose};

/// Where the part on top is at an own event that fits, the parts that are then opened stand for the phases and stacks after it
/// (`event`); and so after its body, which changes none (`body`).
pub fn parts_go_on()
    ensures event { (w : World) → PartsGoOn w }
    ensures body { (w : World) → IsHierarchy (world_classes w) → (classes : List ClassId) (s : Phases) (f : Going) (left : List Item) (below : List Going) → ArePlanned w classes s (at_left f (Does AtBody ∷ left) ∷ below) → ArePlanned w classes s (opened_goings w f left below) }
{}

/// What is left of the parts is what is left of the plan: a part at its start has the whole plan of its class before it (`part`),
/// the event on top is the next one, and the parts that are then opened have all behind it (`event`); and a new object, or one that
/// is deleted, has the construction or destruction before it (`construction`, `destruction`).
pub fn left_parts_are_the_plan()
    ensures part { (w : World) → IsHierarchy (world_classes w) → (course : Course) (form : Form) (c : ClassId) (p : ObjectPart) → events_of w (going w course form c p) ≡ course_events w course form c p }
    ensures event { (w : World) → IsHierarchy (world_classes w) → (f : Going) (k : Kind) (left : List Item) (below : List Going) → events_left w (at_left f (Does k ∷ left) ∷ below) ≡ event_of k f.part ∷ events_left w (opened_goings w f left below) }
    ensures construction { (w : World) → IsHierarchy (world_classes w) → (k : ℕ) (c : ClassId) (fs : List Going) → events_left w (going w Constructs InFull c (whole_part k c) ∷ fs) ≡ construction (world_classes w) (plan_bodies w.setup.program) k c ++ events_left w fs }
    ensures destruction { (w : World) → IsHierarchy (world_classes w) → (k : ℕ) (c : ClassId) (fs : List Going) → events_left w (going w Deletes InFull c (whole_part k c) ∷ fs) ≡ destruction (world_classes w) (plan_bodies w.setup.program) k c ++ events_left w fs }
{}

/// A heap object whose stacks are empty stands on top of any parts, at the start of its plan (`object`); and one object more keeps
/// what stands, where its phases and stacks are new and all others as they were (`more`).
pub fn first_parts_stand()
    ensures object { (w : World) → NewObjectsStand w }
    ensures more { (w : World) → (classes : List ClassId) (s s' : Phases) (c : ClassId) (fs : List Going) → IsSameBut (length classes) s s' → IsNew (length classes) s' → ArePlanned w classes s fs → ArePlanned w (classes ++ c ∷ []) s' fs }
{}

/// Behind the body of a constructor only its last event is left (`constructor`), and behind that of a destructor what code names
/// as left (`destructor`, `deleting`); a plan has at most one body (`once`).
pub fn bodies_run_between()
    ensures constructor { (x : Setup) (form : Form) (c : ClassId) (left : List Item) → IsEnd x Constructs form c (Does AtBody ∷ left) → left ≡ Does AtDone ∷ [] }
    ensures destructor { (x : Setup) (form : Form) (c : ClassId) (left : List Item) → IsEnd x Destroys form c (Does AtBody ∷ left) → left ≡ behind_body (items x Destroys form c) }
    ensures deleting { (x : Setup) (form : Form) (c : ClassId) (left : List Item) → IsEnd x Deletes form c (Does AtBody ∷ left) → left ≡ behind_body (items x Deletes form c) }
    ensures once { (x : Setup) (course : Course) (form : Form) (c : ClassId) (left : List Item) → IsEnd x course form c (Does AtBody ∷ left) → awaits_body left ≡ false }
{}

/// The ops of an own event that fits, run by the frame of its part, keep the columns: where bytes, notes and heap objects stand
/// for the objects of a state, they lead to what stands for the objects after the event, with what it tells told; every heap object
/// lies where it lay, and the registers that the rest of the plan reads are as before.
pub fn events_keep_the_columns()
    ensures { (w : World) (at : PlaceNumbers) → EventsKeepColumns w at }
{}

/// Where a plan is on top of a state, and a block begins in a byte state that stands for it, the frame on top is at the block of
/// the plan's next event, and that block agrees with the step of the subobject machine (`block`): what it leads to stands for the
/// state after it, be the next event of the same plan, or a body. Where the plan of the heap object ends, its return to who waits
/// for the object is left open (`ReturnsFromPlan`). The block stands in the code, unless a body has it (`there`).
pub fn plans_agree()
    ensures block { (w : World) (at : PlaceNumbers) → PlanBlocksAgree w at }
    ensures there { (w : World) → PlanBlocksStand w }
{}

/// Where a body of a plan is on top, the frame on top runs the plan of a part (`body`). The block at the end of a constructor's
/// body is that of its last event, and agrees with the step (`constructor`); the block at the end of a destructor's body opens
/// the parts that follow (`destructor`).
pub fn bodies_of_plans_close()
    ensures body { (w : World) (at : PlaceNumbers) → BodiesRunInPlans w at }
    ensures constructor { (w : World) (at : PlaceNumbers) → ConstructorBodiesClose w at }
    ensures destructor { (w : World) (at : PlaceNumbers) → DestructorBodiesClose w at }
{}
