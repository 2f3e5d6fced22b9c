//! The bytes of pointers to members.

ghost use Rattle.std.specs.Prelude.{◌≡◌, ◌++◌, IfOk, Contains};
ghost use Rattle.cxx_hierarchy.specs.Classes.{Classes};
ghost use Rattle.cxx_overrider.specs.Overriders.{AreOverriders};
ghost use Rattle.cxx_overrider.specs.Virtuals.{own};
ghost use Rattle.abi_sound.specs.Places.{Places, places_of};
ghost use Rattle.abi_slots.specs.Slots.{AreSlots};
ghost use Rattle.abi_memptr.specs.Pointers.{IsDataIn, IsPointerOf, first_class, whole_object_class};
ghost use Rattle.abi_memptr.specs.PointerBytes.{HasFunctionCode, member_pointer_bytes, code_word_of, data_place, entry_word, function_word, word_bytes};

use crate::pointers::MemberPointer;
use abi_slots::{BlockKind, CodeNumbers, Slots};
use abi_sound::{SoundLayout, member_place};
use byte_code::code::ByteList;
use byteorder::{ByteOrder, LittleEndian};
use cxx_hierarchy::{ClassId, Hierarchy};
use cxx_overrider::{FunctionId, Overriders};
use cxx_search::names_are_signatures;
use cxx_subobject::Subobject;
use foundation::{NoMemory, Sequence};
use std::alloc::Global;

/// The word of null data: -1.
const NULL_DATA: u64 = 0xFFFF_FFFF_FFFF_FFFF;

/// The first class of a path; of the empty one class 0.
fn first_class(path: &[ClassId]) -> ClassId
    ensures { result ≡ first_class path.now }
{
    match path.split_first() {
        Some((first, _)) => *first,
        // never met: the path of a subobject is not empty (`class_of` of cxx_subobject)
        None => ClassId(0),
    }
}

/// Where the member `m` of the subobject `s`, of class `c`, lies in an object of class `d`, in bytes.
pub(crate) fn data_place<L: SoundLayout>(
    h: &Hierarchy,
    layout: &L,
    d: ClassId,
    c: ClassId,
    m: u32,
    s: &Subobject,
) -> u64
    requires layout { L.lays_out layout.now h.now }
    requires value { IsDataIn h.now d c m s.now }
    ensures { result ≡ data_place (places_of h.now (L.rows layout.now)) d c m s.now }
{
    layout.place(h, d, s) as u64 + member_place(layout, c, m) as u64
}

/// The word of a virtual function: 1, and the bytes from the address point to its entry.
pub(crate) fn entry_word(slots: &Slots, f: FunctionId) -> u64
    ensures { (h : Classes) (l : Places) → AreSlots h l slots.now → Contains (own h f.class) f → result ≡ entry_word h l f }
{
    1 + 8 * slots.entry(f) as u64
}

/// The word of code: twice its number, and 2.
fn code_word(code: Option<u32>) -> u64
    ensures { result ≡ code_word_of code }
{
    match code {
        Some(code) => 2 * code as u64 + 2,
        None => 0,
    }
}

/// The first word of a pointer to a function.
fn function_word(
    h: &Hierarchy,
    overriders: &Overriders,
    slots: &Slots,
    codes: &CodeNumbers,
    f: FunctionId,
) -> u64
    requires { AreOverriders h.now overriders.now }
    ensures { (l : Places) → AreSlots h.now l slots.now → result ≡ function_word h.now l codes.now f }
{
    h.keeps();
    names_are_signatures();
    if overriders.is_virtual(f) {
        entry_word(slots, f)
    } else {
        code_word(codes.code(f, BlockKind::Plain))
    }
}

/// The bytes of a word, the lowest first.
fn word_bytes(alloc: Global, word: u64) -> Result<Vec<u8>, NoMemory>
    ensures { IfOk result (λ bytes. bytes.items ≡ word_bytes word) }
{
    let mut eight = [0; 8];
    LittleEndian::write_u64(&mut eight, word);
    let bytes = Vec::from_slice(alloc, &eight)?;
    Ok(bytes)
}

/// The bytes of two words, one behind the other.
fn two_words(alloc: Global, first: u64, second: u64) -> Result<Vec<u8>, NoMemory>
    ensures { IfOk result (λ bytes. bytes.items ≡ word_bytes first ++ word_bytes second) }
{
    let mut bytes = word_bytes(alloc, first)?;
    let behind = word_bytes(alloc, second)?;
    bytes.extend_from_slice(&behind)?;
    Ok(bytes)
}

/// The bytes of a pointer to a member, the lowest first (Itanium C++ ABI 2.3): 8 of data, 16 of a function. The whole object is of the
/// first class of the subobject's path.
///
/// Errors: want of memory.
pub fn to_bytes<L: SoundLayout>(
    alloc: Global,
    h: &Hierarchy,
    overriders: &Overriders,
    layout: &L,
    slots: &Slots,
    codes: &CodeNumbers,
    v: &MemberPointer,
) -> Result<ByteList, NoMemory>
    requires layout { L.lays_out layout.now h.now }
    requires overriders { AreOverriders h.now overriders.now }
    requires slots { AreSlots h.now (places_of h.now (L.rows layout.now)) slots.now }
    requires value { IsPointerOf h.now (whole_object_class v.now) v.now }
    requires coded { HasFunctionCode h.now codes.now v.now }
    ensures { IfOk result (λ bytes. bytes ≡ member_pointer_bytes h.now (places_of h.now (L.rows layout.now)) codes.now (whole_object_class v.now) v.now) }
{
    let bytes = match v {
        MemberPointer::NullData => word_bytes(alloc, NULL_DATA)?,
        MemberPointer::Data(c, m, s) => {
            let d = first_class(s.path.as_slice());
            word_bytes(alloc, data_place(h, layout, d, *c, *m, s))?
        }
        MemberPointer::NullFunction => two_words(alloc, 0, 0)?,
        MemberPointer::Function(f, s) => {
            let d = first_class(s.path.as_slice());
            let word = function_word(h, overriders, slots, codes, *f);
            two_words(alloc, word, layout.place(h, d, s) as u64)?
        }
    };
    Ok(Sequence::from_vec(bytes))
}
