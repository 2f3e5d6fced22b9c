//! The rules that a layout is judged by.

/// A rule of a sound layout, in the order in which they are asked of a class (Itanium C++ ABI 2.2, 2.4; ISO C++03 1.8, 9.2, 10).
#[derive(Clone, Copy, Debug, PartialEq, Eq)]
pub enum SoundRule {
    /// A primary base is a dynamic base of the class.
    Primary,
    /// The size is not 0, and what shares a virtual pointer has one place.
    Place,
    /// Everything lies at a multiple of its alignment, and a bit-field in the 8 bytes from its place on.
    Align,
    /// Everything lies inside the size.
    Inside,
    /// Numbers, pointers and virtual pointers share no bit, but those of one chain.
    Overlap,
    /// No two subobjects of one class lie at one place.
    Twice,
}
