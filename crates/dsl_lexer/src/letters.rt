// The classes of bytes.
ghost use Rattle.std.specs.Prelude.{◌≡◌};
ghost use Rattle.dsl_lexer.specs.Letters.{is_blank as blank, is_name_start as starts_name, is_name_byte as continues_name, goes_on as continues};

/// Space, tab and carriage return.
pub(crate) fn is_blank(byte: u8) -> bool
    ensures { result ≡ blank byte }
{
    byte == b' ' || byte == b'\t' || byte == b'\r'
}

/// What a word or an identifier begins with.
pub(crate) fn is_name_start(byte: u8) -> bool
    ensures { result ≡ starts_name byte }
{
    byte.is_ascii_alphabetic() || byte == b'_'
}

/// What a word or an identifier goes on with.
pub(crate) fn is_name_byte(byte: u8) -> bool
    ensures { result ≡ continues_name byte }
{
    byte.is_ascii_alphanumeric() || byte == b'_'
}

/// Whether a text begins with a letter, a digit or `_`.
pub(crate) fn goes_on(text: &[u8]) -> bool
    ensures { result ≡ continues text.now }
{
    match text {
        [] => false,
        [byte, ..] => is_name_byte(*byte),
    }
}
