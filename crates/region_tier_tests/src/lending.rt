//! What threads may share.
ghost use Rattle.std.specs.Prelude.{◌≡◌};

/// The value as it is, if threads may share a reference to it.
pub fn shared<T: Sync>(value: &T) -> &T
    ensures { result.now ≡ value.now }
{
    value
}
