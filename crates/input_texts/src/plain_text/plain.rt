//! Spaces and the visible characters of ASCII.

ghost use Rattle.std.specs.Prelude.{◌≡◌};
ghost use Rattle.input_texts.specs.plain_text.Plain as spec;

#[tactic(auto, unfolding(crate::specs::plain_text::Plain::is_plain_byte))]
fn is_plain_byte(byte: u8) -> bool
    ensures { result ≡ spec.is_plain_byte byte }
{
    32 <= byte && byte <= 126
}

/// Whether all bytes are spaces or visible characters of ASCII, as they have to be in the fields of a table and the
/// lines of a script. Own choice.
pub fn is_plain(bytes: &[u8]) -> bool
    ensures { result ≡ spec.is_plain bytes.now }
{
    bytes.iter().all(|b| is_plain_byte(*b))
}
