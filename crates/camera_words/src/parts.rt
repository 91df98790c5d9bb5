ghost use Rattle.std.specs.Prelude.{◌≡◌, ◌==◌, position};
ghost use Rattle.std.specs.Option.{option_copied};
ghost use Rattle.std.specs.Str.{bytes_eq};
ghost use Rattle.camera_words.specs.Parts.{before_byte, behind_byte};

/// Where the first such byte is.
fn place_of(byte: u8, text: &[u8]) -> Option<usize>
    ensures { result ≡ position (λ b. b == byte) text.now }
{
    text.iter().position(|b| *b == byte)
}

/// What precedes the first such byte, or all of the text.
pub fn before_byte(byte: u8, text: &[u8]) -> &[u8]
    ensures { result.now ≡ before_byte byte text.now }
{
    match place_of(byte, text) {
        Some(place) => &text[..place],
        None => text,
    }
}

/// What follows the first such byte, if there is one.
pub fn behind_byte(byte: u8, text: &[u8]) -> Option<&[u8]>
    ensures { option_copied result ≡ behind_byte byte text.now }
{
    match place_of(byte, text) {
        Some(place) => Some(&text[place + 1..]),
        None => None,
    }
}

/// Whether the word is just this one.
pub(crate) fn is(word: &[u8], wanted: &[u8]) -> bool
    ensures { result ≡ bytes_eq word.now wanted.now }
{
    word == wanted
}
