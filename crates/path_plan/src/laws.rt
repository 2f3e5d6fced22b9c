//! Laws of plans, phases and views: of all hierarchies, objects and runs (ISO C++03 12.6.2 p5, 12.4 p6, 12.7).

ghost use Rattle.std.specs.Prelude.{◌≡◌, ◌⊎◌, ℕ, true, Some, List, ◌∷◌, ◌++◌};
ghost use Rattle.cxx_hierarchy.specs.declared.records.ClassId.{ClassId};
ghost use Rattle.cxx_hierarchy.specs.Classes.{Classes, class_by_number};
ghost use Rattle.cxx_hierarchy.specs.Hierarchies.{IsHierarchy};
ghost use Rattle.cxx_subobject.specs.declared.Subobject.{Subobject};
ghost use Rattle.cxx_subobject.specs.Subobjects.{IsSubobject, class_of, join, whole_of};
ghost use Rattle.cxx_subobject.specs.Locations.{IsPartOf};
ghost use Rattle.path_plan.specs.Places.{Step, ObjectPart, IsPartWithin, part};
ghost use Rattle.path_plan.specs.Phases.{Phases, PartEvent, is_complete, is_ready};
ghost use Rattle.path_plan.specs.declared.form.Form.{Form};
ghost use Rattle.path_plan.specs.Plans.{Bodies, built_by, ended_by, plan, unplan};
ghost use Rattle.path_plan.specs.Mirrors.{exchanged, mirrored};
ghost use Rattle.path_plan.specs.Views.{Settled, view};
ghost use Rattle.path_plan.specs.Whole.{IsNew, StandsWhole, IsBuilt, IsUnbuilt, construction, destruction, whole_part};
ghost use Rattle.path_plan.specs.Runs.{Run, Reached, SettledAt, FitsAt};
ghost use Rattle.path_plan.specs.Pieces.{Piece, Pending, pending, own_next, AreWaiting, IsStackOf, built_pieces, ended_pieces, opened_pieces, rest_of_plan, StackGoesOn};
ghost use Rattle.path_plan.specs.Worked.{declared_in_three, diamond, diamond_built, diamond_ended, holder, holder_built, holder_ended};

/// The plans of a heap object are coherent and settled, and do what they are for: a construction completes all parts of
/// a new object, a destruction ends all parts of one that stands, and neither changes a part of another object.
pub fn plans_are_coherent()
    ensures built { (h : Classes) (bodies : Bodies) (k : ℕ) (c : ClassId) (s : Phases) → IsHierarchy h → IsNew k s → IsBuilt h bodies k c s }
    ensures unbuilt { (h : Classes) (bodies : Bodies) (k : ℕ) (c : ClassId) (s : Phases) → IsHierarchy h → StandsWhole h k c s → IsUnbuilt h bodies k c s }
{}

/// What lies in a heap object's whole are its subobjects, and those of its members and elements at every depth.
pub fn parts_lie_in_the_whole()
    ensures within { (h : Classes) (k : ℕ) (c : ClassId) (q : ObjectPart) → q.object ≡ k → IsPartOf h c q → IsPartWithin h q (whole_part k c) }
    ensures parts { (h : Classes) (k : ℕ) (c : ClassId) (q : ObjectPart) → IsPartWithin h q (whole_part k c) → IsPartOf h c q }
{}

/// In every run each event of a plan fits, and at each statement every object is settled.
pub fn runs_are_settled()
    ensures fits { (h : Classes) (bodies : Bodies) (r : Run) → IsHierarchy h → Reached h bodies r → FitsAt h r r.frames }
    ensures settled { (h : Classes) (bodies : Bodies) (r : Run) → IsHierarchy h → Reached h bodies r → SettledAt h r r.frames }
{}

/// The plan of a part is its points over the plans of its bases, members and elements (12.6.2 p5, 12.4 p6).
pub fn plans_are_of_parts()
    ensures construction { (h : Classes) (bodies : Bodies) (form : Form) (c : ClassId) (p : ObjectPart) → IsHierarchy h → plan h bodies form c p ≡ built_by h bodies (plan h bodies) form c p }
    ensures destruction { (h : Classes) (bodies : Bodies) (form : Form) (c : ClassId) (p : ObjectPart) → IsHierarchy h → unplan h bodies form c p ≡ ended_by h bodies (unplan h bodies) form c p }
{}

/// A destruction is a construction backwards, with destructors for constructors and without initializers (12.4 p6).
pub fn plans_are_mirrored()
    ensures { (h : Classes) (bodies : Bodies) (form : Form) (c : ClassId) (p : ObjectPart) → unplan h bodies form c p ≡ mirrored (plan h (exchanged bodies) form c p) }
{}

/// In an object that is settled: a ready subobject is the view of its complete object, or it is complete; a ready whole
/// is its own view; what lies in a complete part is complete; and the proper bases of a ready part are complete.
pub fn complete_or_view()
    ensures subobject { (h : Classes) (k : ℕ) (s : Phases) (o : List Step) (d : ClassId) (x : Subobject) → Settled h k s → IsSubobject h d x → is_ready (s.phase (part k o x)) ≡ true → (view s k o d ≡ Some x) ⊎ (is_complete (s.phase (part k o x)) ≡ true) }
    ensures whole { (h : Classes) (k : ℕ) (s : Phases) (o : List Step) (d : ClassId) → Settled h k s → is_ready (s.phase (part k o (whole_of d))) ≡ true → view s k o d ≡ Some (whole_of d) }
    ensures inner { (h : Classes) (k : ℕ) (s : Phases) (p q : ObjectPart) → Settled h k s → p.object ≡ k → IsPartWithin h q p → is_complete (s.phase p) ≡ true → is_complete (s.phase q) ≡ true }
    ensures bases { (h : Classes) (k : ℕ) (s : Phases) (p : ObjectPart) (c : ClassId) (i : Subobject) → Settled h k s → p.object ≡ k → is_ready (s.phase p) ≡ true → class_of p.at ≡ Some c → IsSubobject h c i → (i ≡ whole_of c → ⊥) → is_complete (s.phase (part p.object p.owner (join p.at i))) ≡ true }
{}

/// A construction as a stack of frames, each a part with what is left of its own events and of the parts between them.
/// The frames of a part give its plan; the next event is the top frame's own; behind it the parts up to the next own
/// event are opened; and the frames that run are the parts whose constructors run, the innermost first.
pub fn constructions_by_frames()
    ensures plan { (h : Classes) (bodies : Bodies) (form : Form) (c : ClassId) (p : ObjectPart) (below : List Pending) → IsHierarchy h → rest_of_plan (plan h bodies) (pending p (built_pieces h bodies form c p) ∷ below) ≡ plan h bodies form c p ++ rest_of_plan (plan h bodies) below }
    ensures event { (h : Classes) (bodies : Bodies) (p : ObjectPart) (e : PartEvent) (left : List Piece) (below : List Pending) → IsHierarchy h → rest_of_plan (plan h bodies) (own_next p e left below) ≡ e ∷ rest_of_plan (plan h bodies) (opened_pieces (built_pieces h bodies) p left below) }
    ensures first { (h : Classes) (bodies : Bodies) (form : Form) (c : ClassId) (p : ObjectPart) (below : List Pending) → AreWaiting below → AreWaiting (pending p (built_pieces h bodies form c p) ∷ below) }
    ensures waiting { (h : Classes) (bodies : Bodies) (p : ObjectPart) (e : PartEvent) (left : List Piece) (below : List Pending) → AreWaiting (own_next p e left below) → AreWaiting (opened_pieces (built_pieces h bodies) p left below) }
    ensures idle { (h : Classes) (bodies : Bodies) (form : Form) (c : ClassId) (p : ObjectPart) (below : List Pending) (s : Phases) → IsStackOf below s → IsStackOf (pending p (built_pieces h bodies form c p) ∷ below) s }
    ensures stack { (h : Classes) (bodies : Bodies) (p : ObjectPart) (e : PartEvent) (left : List Piece) (below : List Pending) (s : Phases) → StackGoesOn (built_pieces h bodies) p e left below s }
{}

/// The same of a destruction.
pub fn destructions_by_frames()
    ensures plan { (h : Classes) (bodies : Bodies) (form : Form) (c : ClassId) (p : ObjectPart) (below : List Pending) → IsHierarchy h → rest_of_plan (unplan h bodies) (pending p (ended_pieces h bodies form c p) ∷ below) ≡ unplan h bodies form c p ++ rest_of_plan (unplan h bodies) below }
    ensures event { (h : Classes) (bodies : Bodies) (p : ObjectPart) (e : PartEvent) (left : List Piece) (below : List Pending) → IsHierarchy h → rest_of_plan (unplan h bodies) (own_next p e left below) ≡ e ∷ rest_of_plan (unplan h bodies) (opened_pieces (ended_pieces h bodies) p left below) }
    ensures first { (h : Classes) (bodies : Bodies) (form : Form) (c : ClassId) (p : ObjectPart) (below : List Pending) → AreWaiting below → AreWaiting (pending p (ended_pieces h bodies form c p) ∷ below) }
    ensures waiting { (h : Classes) (bodies : Bodies) (p : ObjectPart) (e : PartEvent) (left : List Piece) (below : List Pending) → AreWaiting (own_next p e left below) → AreWaiting (opened_pieces (ended_pieces h bodies) p left below) }
    ensures idle { (h : Classes) (bodies : Bodies) (form : Form) (c : ClassId) (p : ObjectPart) (below : List Pending) (s : Phases) → IsStackOf below s → IsStackOf (pending p (ended_pieces h bodies form c p) ∷ below) s }
    ensures stack { (h : Classes) (bodies : Bodies) (p : ObjectPart) (e : PartEvent) (left : List Piece) (below : List Pending) (s : Phases) → StackGoesOn (ended_pieces h bodies) p e left below s }
{}

/// Two worked objects: a diamond, and an array of a class with a virtual base. Virtual bases come first and once in each
/// complete object, then direct bases, members, elements in the order of their index, the body; and backwards.
pub fn worked_plans()
    ensures diamond_construction { construction diamond declared_in_three 7 (class_by_number 3) ≡ diamond_built }
    ensures diamond_destruction { destruction diamond declared_in_three 7 (class_by_number 3) ≡ diamond_ended }
    ensures array_construction { construction holder declared_in_three 7 (class_by_number 3) ≡ holder_built }
    ensures array_destruction { destruction holder declared_in_three 7 (class_by_number 3) ≡ holder_ended }
{}
