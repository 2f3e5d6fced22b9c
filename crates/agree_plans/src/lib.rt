//! Turns of plans, whole: the block of a plan's next event, with the return to the body that waits for the heap object.
//!
//! A plan runs event by event until a body is next; the end of a constructor's body does the event that its part is done, and the
//! end of a destructor's body opens the members. With the last event of a heap object the pointer to it goes to the variable that
//! waits for it (ISO C++03 5.3.4, 12.6.2, 12.4). Here the block of each of these steps is found in the code, and agrees with the
//! move of the subobject machine.
//!
//! This crate owns what runs keep of their plans (`Courses.IsInOrder`: an event that has no block of its own is never next on a
//! plan on top, and nobody waits for a destruction), what is known of a state whose move is an event (`Turns.IsUnderWay`), and when
//! a block is there and agrees (`Turns.HasBlock`). The layer above may rely on its laws, which do nothing, and on the lemmas behind
//! them: `leaves_stand`, `event_turn`, `constructor_turn`, `destructor_turn`, `runs_in_order`.
#![tactic(auto)]

pub mod laws;

pub use crate::laws::{ends_of_bodies_agree, events_agree, plans_keep_their_order};
