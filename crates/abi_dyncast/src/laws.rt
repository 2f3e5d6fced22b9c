//! Laws of the answers. The functions do nothing: their contracts are what they say.

ghost use Rattle.std.specs.Prelude.{◌≡◌, ℕ, Bool, Option};
ghost use Rattle.byte_memory.specs.Store.{Store};
ghost use Rattle.abi_dyncast.specs.Casts.{CastsTo, TellsWithin};
ghost use Rattle.abi_dyncast.specs.ReadLaws.{ReadsDecideCasts};

/// A cast has one answer, and so has a test of containment.
pub fn one_answer()
    ensures cast { (image : ℕ → Option ℕ) (memory : Store) (at class target : ℕ) (a b : Option ℕ) → CastsTo image memory at class target a → CastsTo image memory at class target b → a ≡ b }
    ensures within { (image : ℕ → Option ℕ) (base : ℕ) (memory : Store) (view_at view_class at class : ℕ) (a b : Bool) → TellsWithin image base memory view_at view_class at class a → TellsWithin image base memory view_at view_class at class b → a ≡ b }
{}

/// A cast depends on no virtual pointer but that of its source and those of the parts below the view, and on no word that does not
/// stand in the image.
pub fn cast_reads()
    ensures { (image other : ℕ → Option ℕ) (memory next : Store) → ReadsDecideCasts image other memory next }
{}
