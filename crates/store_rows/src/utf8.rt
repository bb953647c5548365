//! Texts are UTF-8.
ghost use Rattle.std.specs.Prelude.{◌≡◌, true};
ghost use Rattle.std.specs.Str.{is_utf8};

/// A text is UTF-8. It does nothing.
pub(crate) fn text_is_utf8(text: &str)
    ensures value { is_utf8 text.now ≡ true }
{
    let _bytes = text.as_bytes();
}
