//! The law of the bytes of data. The function does nothing: its contract is what it says.

ghost use Rattle.std.specs.Prelude.{List};
ghost use Rattle.cxx_hierarchy.specs.Classes.{Classes};
ghost use Rattle.abi_sound.specs.declared.class_layout.ClassLayout.{ClassLayout};
ghost use Rattle.abi_slots.specs.declared.code_numbers.CodeRow.{CodeRow};
ghost use Rattle.abi_memptr.specs.DataLaws.{DataBytesAreDistinct};

/// Two pointers to data members of one type, in objects of one class, have equal bytes exactly where they name the same field, over any
/// sound layout. Of an array the type is that of its elements, whatever its length.
pub fn data_bytes_name_fields()
    ensures { (h : Classes) (rows : List ClassLayout) (codes : List CodeRow) → DataBytesAreDistinct h rows codes }
{}
