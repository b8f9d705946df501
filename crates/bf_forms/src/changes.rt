//! The changes of the files of a commit.
ghost use Rattle.std.specs.Prelude.{◌≡◌};
ghost use Rattle.bf_grammar.specs.Forms as forms;
ghost use Rattle.bf_forms.specs.Answers.{IsOfText};
ghost use Rattle.bf_forms.specs.Changes.{IsModifyLine, deletes_all};

use crate::cuts::{cut, is_text, text_after};
use crate::parts::colon_number;
use bf_grammar::{ContentForm, StreamFault};
use bf_oid::{Mode, oid_from_hex};

/// A line `M <mode> <dataref> <path>` as it is read.
#[derive(Clone, Copy, Debug)]
pub struct ModifyLine<'a> {
    /// The mode of the file.
    pub mode: Mode,
    /// How the line names the content of the file.
    pub content: ContentForm,
    /// The path of the file, which is not looked at.
    pub path: &'a [u8],
}

/// Reads a line `M <mode> <dataref> <path>`. The modes 040000 and 40000 are `Unsupported`, whatever
/// follows them; any other line that is not in the form is `Syntax`.
#[tactic(auto, unfolding(bf_grammar::specs::Forms::modify_form))]
pub fn modify_line<'a>(line: u64, text: &'a [u8]) -> Result<ModifyLine<'a>, StreamFault>
    ensures value { IsModifyLine line text.now result }
    ensures own { IsOfText result }
{
    let (mode, rest) = cut(b' ', text_after(line, b"M", text)?);
    let mode = mode_of(line, mode)?;
    let Some(rest) = rest else {
        return Err(StreamFault::Syntax { line });
    };
    let (word, path) = cut(b' ', rest);
    let Some(path) = path else {
        return Err(StreamFault::Syntax { line });
    };
    let content = content_of(line, word)?;
    Ok(ModifyLine {
        mode,
        content,
        path,
    })
}

fn mode_of(line: u64, text: &[u8]) -> Result<Mode, StreamFault>
    ensures value { result ≡ forms.mode_of line text.now }
    ensures own { IsOfText result }
{
    match text {
        b"100644" | b"644" => Ok(Mode::Plain),
        b"100755" | b"755" => Ok(Mode::Exec),
        b"120000" => Ok(Mode::Link),
        b"160000" => Ok(Mode::Module),
        b"040000" | b"40000" => Err(StreamFault::Unsupported { line }),
        _ => Err(StreamFault::Syntax { line }),
    }
}

fn content_of(line: u64, word: &[u8]) -> Result<ContentForm, StreamFault>
    ensures value { result ≡ forms.content_of line word.now }
    ensures own { IsOfText result }
{
    if is_text(b"inline", word) {
        Ok(ContentForm::Inline)
    } else if let Some(mark) = colon_number(word) {
        Ok(ContentForm::Mark(mark))
    } else {
        match oid_from_hex(word) {
            Some(name) => Ok(ContentForm::Name(name)),
            None => Err(StreamFault::Syntax { line }),
        }
    }
}

/// Whether a line is `deleteall` alone; any other is `Syntax`.
pub fn delete_all_of(line: u64, text: &[u8]) -> Result<(), StreamFault>
    ensures value { result ≡ deletes_all line text.now }
    ensures own { IsOfText result }
{
    if is_text(b"deleteall", text) {
        Ok(())
    } else {
        Err(StreamFault::Syntax { line })
    }
}
