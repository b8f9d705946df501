//! The first lines of commands, and refs.
ghost use Rattle.std.specs.Prelude.{◌≡◌, ◌&&◌, not};
ghost use Rattle.std.specs.List.{list_all};
ghost use Rattle.bf_grammar.specs.Forms as forms;
ghost use Rattle.bf_forms.specs.Answers.{IsOfText};
ghost use Rattle.bf_forms.specs.FirstLines.{IsFirstLine, IsNameIn, IsFeature};

use crate::cuts::{behind_word, has_word, is_text, text_after};
use bf_grammar::StreamFault;

/// Whether a text may be a ref or the name of a tag: one or more bytes above 32 and other than 127,
/// with none of `~ ^ : ? * [ \`, and without `..`.
pub fn is_ref(text: &[u8]) -> bool
    ensures { result ≡ forms.is_ref text.now }
{
    !text.is_empty() && has_form_of_ref(text)
}

/// Whether all bytes may stand in a ref, and no dot stands behind another.
#[tactic(auto, using(crate::proofs::Dots::never_with_dots))]
fn has_form_of_ref(text: &[u8]) -> bool
    ensures { result ≡ (list_all forms.is_ref_byte text.now && not (forms.has_two_dots text.now)) }
{
    let mut rest = text;
    while let [byte, behind @ ..] = rest {
        if !is_ref_byte(*byte) {
            return false;
        }
        if *byte == b'.' && behind.starts_with(b".") {
            return false;
        }
        rest = behind;
    }
    true
}

fn is_ref_byte(byte: u8) -> bool
    ensures { result ≡ forms.is_ref_byte byte }
{
    byte > b' ' && !matches!(byte, 127 | b'\\' | b'~' | b'^' | b':' | b'?' | b'*' | b'[')
}

/// The first line of a command as it is read, with the ref or the name in it.
#[derive(Clone, Copy, Debug, PartialEq, Eq)]
pub enum FirstLine<'a> {
    /// `done`: the stream ends here.
    Done,
    /// `blob`: a content.
    Blob,
    /// `commit <ref>`: a commit on this branch.
    Commit(&'a [u8]),
    /// `tag <name>`: an annotated tag of this name.
    Tag(&'a [u8]),
    /// `reset <ref>`: sets or removes this ref.
    Reset(&'a [u8]),
    /// `progress`: dropped.
    Progress,
    /// `option`, or `feature date-format=raw`: dropped.
    Feature,
    /// `feature done`: the stream must end with `done`.
    FeatureDone,
}

/// Reads the first line of a command. A line of a command of git that is not taken here is
/// `Unsupported`, and so is a feature other than `done` and `date-format=raw`. Any other line that is
/// not in its form is `Syntax`.
#[tactic(auto, unfolding(bf_grammar::specs::Forms::head_of))]
pub fn first_line<'a>(line: u64, text: &'a [u8]) -> Result<FirstLine<'a>, StreamFault>
    ensures value { IsFirstLine line text.now result }
    ensures own { IsOfText result }
{
    if is_text(b"done", text) {
        Ok(FirstLine::Done)
    } else if is_text(b"blob", text) {
        Ok(FirstLine::Blob)
    } else if has_word(b"commit", text) {
        Ok(FirstLine::Commit(name_in(line, b"commit", text)?))
    } else if has_word(b"tag", text) {
        Ok(FirstLine::Tag(name_in(line, b"tag", text)?))
    } else if has_word(b"reset", text) {
        Ok(FirstLine::Reset(name_in(line, b"reset", text)?))
    } else if has_word(b"progress", text) {
        text_after(line, b"progress", text)?;
        Ok(FirstLine::Progress)
    } else if has_word(b"option", text) {
        text_after(line, b"option", text)?;
        Ok(FirstLine::Feature)
    } else if has_word(b"feature", text) {
        feature_of(line, text_after(line, b"feature", text)?)
    } else if is_unsupported(text) {
        Err(StreamFault::Unsupported { line })
    } else {
        Err(StreamFault::Syntax { line })
    }
}

// The ref or name behind the word of a line.
fn name_in<'a>(line: u64, word: &[u8], text: &'a [u8]) -> Result<&'a [u8], StreamFault>
    ensures value { IsNameIn line word.now text.now result }
    ensures own { IsOfText result }
{
    match behind_word(word, text) {
        Some(name) if is_ref(name) => Ok(name),
        _ => Err(StreamFault::Syntax { line }),
    }
}

fn feature_of<'a>(line: u64, feature: &[u8]) -> Result<FirstLine<'a>, StreamFault>
    ensures value { IsFeature line feature.now result }
    ensures own { IsOfText result }
{
    if is_text(b"done", feature) {
        Ok(FirstLine::FeatureDone)
    } else if is_text(b"date-format=raw", feature) {
        Ok(FirstLine::Feature)
    } else {
        Err(StreamFault::Unsupported { line })
    }
}

// Whether a line begins with a command of git that is not taken here.
fn is_unsupported(text: &[u8]) -> bool
    ensures { result ≡ forms.is_unsupported text.now }
{
    has_word(b"C", text)
        || has_word(b"R", text)
        || has_word(b"N", text)
        || has_word(b"ls", text)
        || has_word(b"cat-blob", text)
        || has_word(b"get-mark", text)
        || has_word(b"alias", text)
        || has_word(b"checkpoint", text)
        || has_word(b"gpgsig", text)
}
