//! What stands in a place that is not in use.
ghost use Rattle.std.specs.Prelude.{◌≡◌, pos};

/// A type with an element that stands in the places of a table that are not in use.
pub trait Blank: Copy {
    ghost nothing: { Self };

    /// That element.
    fn blank() -> Self
        ensures { result ≡ nothing };
}

impl Blank for i32 {
    ghost nothing = { pos 0 };

    fn blank() -> i32 {
        0
    }
}
