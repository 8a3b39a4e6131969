//! What turns tell: a relation that the laws are about.
ghost use Rattle.std.specs.Prelude.{List};

/// Something that turns tell. A turn may carry more than what contracts are to say of it, as a box for its picture: so
/// what it tells is a relation and no function.
pub trait Tale {
    type Turn;

    type Item;

    /// The turn tells these items.
    ghost tells: { Self → Self.Turn → List Self.Item → Type 0 };
}
