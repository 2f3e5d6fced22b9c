//! Parts that are open, and how far each one is.

use crate::plan::PlanEvent;
use path_heap::NumberedPart;
use path_plan::Form;

/// What comes next in a part. In a construction the numbers tell which base, member or element is next, and in a destruction how
/// many of them are left. The limits on classes keep each of them small: no class has more than 64 bases, 1,024 members, 4,096
/// elements a member or 1,024 virtual bases. An entry of the stack has 32 bytes so.
#[derive(Clone, Copy)]
pub enum Stage {
    /// The virtual bases of a complete object.
    Shared(u16),
    /// The direct bases that are not virtual.
    Bases(u16),
    /// The members, and the elements of the one that is under way.
    Members(u16, u16),
    /// The body of the constructor or the destructor.
    Body,
    /// The last event of the part.
    Last,
}

/// A part that is open.
#[derive(Clone, Copy)]
pub struct Pending {
    pub part: NumberedPart,
    pub form: Form,
    pub stage: Stage,
}

/// What a part gives next.
#[derive(Clone, Copy)]
pub enum Step {
    /// An event of its own, with the stage behind it.
    Event(PlanEvent, Stage),
    /// Its last event.
    Last(PlanEvent),
    /// A part inside it, with the stage behind that.
    Open(NumberedPart, Form, Stage),
}
