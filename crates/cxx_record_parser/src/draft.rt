//! The record of a class, as its parts are added.

ghost use Rattle.std.specs.Prelude.{◌≡◌, ◌++◌, ◌∷◌, ◌≤◌, [], List, length, IfOk, IfErr, OnOk, ℕ, Some};
ghost use Rattle.cxx_hierarchy.specs.declared.stop.Stop.{Stop};
ghost use Rattle.cxx_grammar.specs.declared.sort.Lexeme.{Lexeme};
ghost use Rattle.cxx_hierarchy.specs.declared.records.PartKind.{PartKind};
ghost use Rattle.cxx_grammar.specs.Lexemes.{bytes_of};
ghost use Rattle.cxx_syntax.specs.declared.part.ClassPart.{ClassPart};
ghost use Rattle.cxx_syntax.specs.Parts.{public_after};
ghost use Rattle.cxx_syntax.specs.Definitions.{record_of, bodies_of, declared_destructor, entry, a_body};
ghost use Rattle.cxx_record_parser.specs.invariants.Readers.{IsDraft, max_lexemes};

use cxx_grammar::{Lexeme, name_of};
use cxx_hierarchy::{
    BaseList, ClassRec, Destructor, Function, FunctionList, Member, MemberList, Name, PartAt,
    PartKind, PartOrder, Stop,
};
use cxx_syntax::{Body, BodyList, BodyOwner, BodyTree, ClassPart, InitList};
use foundation::Sequence;
use std::alloc::Global;

/// What the parts of a class make: the fields of its record, and the bodies.
#[derive(Drop)]
pub struct Draft {
    pub members: MemberList<Name>,
    pub functions: FunctionList<Name>,
    pub order: PartOrder,
    pub has_constructor: bool,
    pub destructor: Destructor,
    pub bodies: BodyList,
}

// A number of parts, of which there are at most as many as lexemes.
fn number_of(len: usize) -> u32
    requires { len ≤ max_lexemes }
    ensures { result ≡ len }
{
    len as u32
}

/// Whether what stands behind a part is public.
pub fn public_after(is_public: bool, part: &ClassPart) -> bool
    ensures { result ≡ public_after is_public part.now }
{
    match part {
        ClassPart::Label(label) => *label,
        _ => is_public,
    }
}

// A destructor by whether it is declared virtual.
fn declared_destructor(is_virtual: bool) -> Destructor
    ensures { result ≡ declared_destructor is_virtual }
{
    if is_virtual {
        Destructor::Virtual
    } else {
        Destructor::Plain
    }
}

impl Draft {
    /// No part yet.
    pub fn new(alloc: Global) -> Draft
        ensures { (text : List ℕ) (class : Lexeme) → IsDraft text class [] result }
    {
        Draft {
            members: Sequence::new(alloc),
            functions: Sequence::new(alloc),
            order: Sequence::new(alloc),
            has_constructor: false,
            destructor: Destructor::Implicit,
            bodies: Sequence::new(alloc),
        }
    }

    fn push_body(
        &mut self,
        alloc: Global,
        text: &[u8],
        class: &Lexeme,
        owner: BodyOwner,
        inits: InitList,
        tree: BodyTree,
    ) -> Result<(), Stop>
        ensures ok { OnOk result (self.new ≡ record self.old { bodies = self.old.bodies ++ a_body (bytes_of text.now class.now) owner inits tree }) }
        ensures err { IfErr result (λ e. e ≡ Stop.NoMemory) }
    {
        let name = name_of(alloc, text, class)?;
        self.bodies.push(Body {
            class: name,
            owner,
            inits,
            tree,
        })?;
        Ok(())
    }

    fn push_entry(
        &mut self,
        kind: PartKind,
        number: u32,
        ty_at: Option<u32>,
        at: u32,
    ) -> Result<(), Stop>
        ensures ok { OnOk result (self.new ≡ record self.old { order = self.old.order ++ entry kind number ty_at at }) }
        ensures err { IfErr result (λ e. e ≡ Stop.NoMemory) }
    {
        self.order.push(PartAt {
            kind,
            number,
            ty_at,
            at,
        })?;
        Ok(())
    }

    fn add_field(&mut self, member: Member<Name>, ty_at: u32) -> Result<(), Stop>
        requires { length self.old.members ≤ max_lexemes }
        ensures ok { OnOk result (self.new ≡ record self.old { members = self.old.members ++ member ∷ []; order = self.old.order ++ entry PartKind.Member (length self.old.members) (Some ty_at) member.at }) }
        ensures err { IfErr result (λ e. e ≡ Stop.NoMemory) }
    {
        let number = number_of(self.members.len());
        self.push_entry(PartKind::Member, number, Some(ty_at), member.at)?;
        self.members.push(member)?;
        Ok(())
    }

    fn add_function(
        &mut self,
        alloc: Global,
        text: &[u8],
        class: &Lexeme,
        function: Function<Name>,
        ty_at: u32,
        body: Option<BodyTree>,
    ) -> Result<(), Stop>
        requires { length self.old.functions ≤ max_lexemes }
        ensures ok { OnOk result ((parts : List ClassPart) → IsDraft text.now class.now parts self.old → IsDraft text.now class.now (parts ++ ClassPart.Function function ty_at body ∷ []) self.new) }
        ensures err { IfErr result (λ e. e ≡ Stop.NoMemory) }
    {
        let number = number_of(self.functions.len());
        self.push_entry(PartKind::Function, number, Some(ty_at), function.at)?;
        self.functions.push(function)?;
        if let Some(tree) = body {
            let owner = BodyOwner::Function(number);
            self.push_body(alloc, text, class, owner, Sequence::new(alloc), tree)?;
        }
        Ok(())
    }

    /// Adds the next part of the class. The error is want of memory.
    pub fn add(
        &mut self,
        alloc: Global,
        text: &[u8],
        class: &Lexeme,
        part: ClassPart,
    ) -> Result<(), Stop>
        requires members { length self.old.members ≤ max_lexemes }
        requires functions { length self.old.functions ≤ max_lexemes }
        ensures ok { OnOk result ((parts : List ClassPart) → IsDraft text.now class.now parts self.old → IsDraft text.now class.now (parts ++ part ∷ []) self.new) }
        ensures err { IfErr result (λ e. e ≡ Stop.NoMemory) }
    {
        match part {
            ClassPart::Label(_) => Ok(()),
            ClassPart::Field(member, ty_at) => {
                self.add_field(member, ty_at)?;
                Ok(())
            }
            ClassPart::Function(function, ty_at, body) => {
                self.add_function(alloc, text, class, function, ty_at, body)?;
                Ok(())
            }
            ClassPart::Constructor(at, inits, tree) => {
                self.push_entry(PartKind::Constructor, 0, None, at)?;
                self.has_constructor = true;
                self.push_body(alloc, text, class, BodyOwner::Constructor, inits, tree)?;
                Ok(())
            }
            ClassPart::Destructor(is_virtual, at, tree) => {
                self.push_entry(PartKind::Destructor, 0, None, at)?;
                self.destructor = declared_destructor(is_virtual);
                let owner = BodyOwner::Destructor;
                self.push_body(alloc, text, class, owner, Sequence::new(alloc), tree)?;
                Ok(())
            }
        }
    }

    /// The record of the class of this name, and the bodies in it. The error is want of memory.
    pub fn finish(
        self,
        alloc: Global,
        text: &[u8],
        class: &Lexeme,
        bases: BaseList<Name>,
    ) -> Result<(ClassRec<Name>, BodyList), Stop>
        ensures definition { IfOk result (λ x. (parts : List ClassPart) → IsDraft text.now class.now parts self → x.0 ≡ record_of text.now class.now bases parts) }
        ensures bodies { IfOk result (λ x. (parts : List ClassPart) → IsDraft text.now class.now parts self → x.1 ≡ bodies_of (bytes_of text.now class.now) parts) }
        ensures err { IfErr result (λ e. e ≡ Stop.NoMemory) }
    {
        let Draft {
            members,
            functions,
            order,
            has_constructor,
            destructor,
            bodies,
        } = self;
        let name = name_of(alloc, text, class)?;
        let definition = ClassRec {
            name,
            at: class.at,
            bases,
            members,
            functions,
            order,
            has_constructor,
            destructor,
        };
        Ok((definition, bodies))
    }
}
