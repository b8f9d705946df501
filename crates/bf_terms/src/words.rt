//! Which words may be terms.
ghost use Rattle.std.specs.Prelude.{◌≡◌};
ghost use Rattle.std.specs.List.{list_all};
ghost use Rattle.bf_terms.specs.Words as words;

fn is_word(text: &[u8], word: &[u8]) -> bool
    ensures { result ≡ words.is_word text.now word.now }
{
    text == word
}

fn is_term_byte(byte: u8) -> bool
    ensures { result ≡ words.is_term_byte byte }
{
    matches!(byte, b'A'..=b'Z' | b'a'..=b'z' | b'0'..=b'9' | b'-')
}

fn is_command(text: &[u8]) -> bool
    ensures { result ≡ words.is_command text.now }
{
    is_word(text, b"help")
        || is_word(text, b"start")
        || is_word(text, b"skip")
        || is_word(text, b"next")
        || is_word(text, b"reset")
        || is_word(text, b"visualize")
        || is_word(text, b"view")
        || is_word(text, b"replay")
        || is_word(text, b"log")
        || is_word(text, b"run")
        || is_word(text, b"terms")
}

fn has_length(text: &[u8]) -> bool
    ensures { result ≡ words.has_length text.now }
{
    !text.is_empty() && text.len() <= 40
}

fn has_letters(text: &[u8]) -> bool
    ensures { result ≡ list_all words.is_term_byte text.now }
{
    text.iter().all(|byte| is_term_byte(*byte))
}

fn begins_with_dash(text: &[u8]) -> bool
    ensures { result ≡ words.begins_with_dash text.now }
{
    text.starts_with(b"-")
}

fn has_form(text: &[u8]) -> bool
    ensures { result ≡ words.has_form text.now }
{
    has_length(text) && has_letters(text) && !begins_with_dash(text)
}

fn is_term(text: &[u8]) -> bool
    ensures { result ≡ words.is_term text.now }
{
    has_form(text) && !is_command(text)
}

/// Whether this may be the term for the bad side.
pub(crate) fn is_new_term(text: &[u8]) -> bool
    ensures { result ≡ words.is_new_term text.now }
{
    is_term(text) && !is_word(text, b"good") && !is_word(text, b"old")
}

/// Whether this may be the term for the good side.
pub(crate) fn is_old_term(text: &[u8]) -> bool
    ensures { result ≡ words.is_old_term text.now }
{
    is_term(text) && !is_word(text, b"bad") && !is_word(text, b"new")
}
