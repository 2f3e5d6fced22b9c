//! What a source is: the trees of bodies, the declarations, and which tokens they stand for (ISO C++03 5 to 12, of
//! which the language has a small part).
//!
//! This crate owns the trees of bodies (`BodyTree` and its parts), the parts of classes and the text of a source
//! (`SourceText`); the definitions of which tokens they stand for (`BodyReads`, `SourceReads`), a case for each form of
//! each production; of the class record that the parts of a class make (`record_of`), of which part of which record each
//! body is the body of (`AreBodiesOf`), and of trees and sources that say the same (`SameBody`, `SameSource`).
//!
//! The layers above may rely on: `scalar`, `constant`, `pointer` and `operand`, the readers that bodies and declarations
//! share, give what the tokens at the front stand for, and refuse exactly where the table of the grammar does.
#![tactic(auto)]

pub mod operand;
pub mod part;
pub mod scalar;
pub mod source_text;
pub mod tree;

pub use crate::operand::{constant, spot};
pub use crate::part::{ClassPart, Item};
pub use crate::scalar::is_scalar_word;
pub use crate::source_text::{
    Body, BodyList, BodyOwner, Global, GlobalList, Init, InitList, SourceText,
};
pub use crate::tree::{
    BinaryOp, BodyTree, CallText, CastKind, CastText, Constant, Operand, OperandList, PlacePart,
    PlacePartList, PlaceText, PointerText, Right, Spot, Statement, StatementKind,
};
