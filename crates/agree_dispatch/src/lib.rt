//! What statements read of virtual tables by addresses, casts among them: laws that join bytes with subobjects.
//!
//! A view of an object stands in memory where the virtual pointers of its dynamic subobjects lead to the tables of its group in an
//! image (`specs/Standing.antt`: `IsViewAt`). The group is that of the view itself or, where its class has no virtual base, that of
//! an object of the class alone; one record serves both (law `views_stand`). With the type information of all classes in the image
//! (`specs/CastStanding.antt`: `StandsInMemory`) the graph that a cast over bytes walks shows exactly the subobjects of the view.
//!
//! The layer above may rely on the laws, over any sound layout. The words of tables lead to virtual bases, to the whole of the
//! view and to its class (`words`); the entry of a virtual function runs its final overrider in the view, with its subobject as
//! `this` (`entries`); an entry that is listed by another class moves a result as the function that was found says
//! (`same_returning`), by no word where the path to its class lies in no virtual base (`result_words`); and a moved result points to
//! the subobject of that class (`results`). `abi_dyncast` can cast from each dynamic subobject of the view, and its answer is the
//! address of what the rule of the language gives (`casts`; ISO C++03 5.2.7 p8); and it tells whether a subobject of the complete
//! object lies in the view (`containment`). The crate has no code of its own.
#![tactic(auto)]

pub mod cast_laws;
pub mod laws;

pub use crate::cast_laws::{casts, containment, first_points, no_table};
pub use crate::laws::{entries, keys, result_words, results, same_returning, views_stand, words};
