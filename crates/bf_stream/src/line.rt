//! Lines.
ghost use Rattle.std.specs.Prelude.{IfOk, OnOk};
ghost use Rattle.std.specs.Bool.{OnTrue};
ghost use Rattle.bf_grammar.specs.Lines as lines;
ghost use Rattle.bf_stream.specs.Cursor.{HasLine, IsShortWord, Reads, looks_for, must_find};

use crate::Cursor;
use crate::front::{tell_line, tell_missing, tell_word};
use bf_forms::has_word;
use bf_grammar::StreamFault;
use bf_io::Source;

impl<'a, S: Source> Cursor<'a, S> {
    /// Goes past comments and empty lines, and returns whether a line is in front then. So a command is looked
    /// for.
    pub fn at_command(&mut self) -> Result<bool, StreamFault>
        ensures reads { Reads S.left S.faults self.old self.new result lines.at_command }
        ensures line { IfOk result (λ there. OnTrue there (HasLine S.left self.new)) }
    {
        self.window.find_line();
        self.at_found_command()
    }

    /// The same, at once where the line was found, is no comment and not empty.
    fn at_found_command(&mut self) -> Result<bool, StreamFault>
        ensures reads { Reads S.left S.faults self.old self.new result lines.at_command }
        ensures line { IfOk result (λ there. OnTrue there (HasLine S.left self.new)) }
    {
        if let Some(line) = self.window.plain_line() {
            if !line.is_empty() && line.len() <= self.limits.line as usize {
                return Ok(true);
            }
        }
        let ahead = self.next_front(true)?;
        tell_line(ahead)
    }

    /// Goes past comments, and returns whether the line that is in front then begins with this word. A line
    /// that was found before is not searched again.
    #[inline(always)]
    pub fn at_word(&mut self, word: &[u8]) -> Result<bool, StreamFault>
        requires { IsShortWord word.now }
        ensures reads { Reads S.left S.faults self.old self.new result (looks_for word.now) }
        ensures line { IfOk result (λ there. OnTrue there (HasLine S.left self.new)) }
    {
        self.window.find_line();
        self.at_found_word(word)
    }

    /// The same as `at_word`, at once where the line was found and is no comment.
    #[inline(always)]
    fn at_found_word(&mut self, word: &[u8]) -> Result<bool, StreamFault>
        requires { IsShortWord word.now }
        ensures reads { Reads S.left S.faults self.old self.new result (looks_for word.now) }
        ensures line { IfOk result (λ there. OnTrue there (HasLine S.left self.new)) }
    {
        if let Some(line) = self.window.plain_line() {
            if line.len() <= self.limits.line as usize {
                return Ok(has_word(word, line));
            }
        }
        self.next_at_word(word)
    }

    /// The same, by a search for the line.
    #[inline(never)]
    fn next_at_word(&mut self, word: &[u8]) -> Result<bool, StreamFault>
        requires { IsShortWord word.now }
        ensures reads { Reads S.left S.faults self.old self.new result (looks_for word.now) }
        ensures line { IfOk result (λ there. OnTrue there (HasLine S.left self.new)) }
    {
        let ahead = self.next_front(false)?;
        tell_word(ahead, self.window.line(), word)
    }

    /// Goes past comments, and sees that the line that is in front then begins with this word, where a part
    /// must stand.
    #[inline(always)]
    pub fn must_be_at(&mut self, word: &[u8]) -> Result<(), StreamFault>
        requires { IsShortWord word.now }
        ensures reads { Reads S.left S.faults self.old self.new result (must_find word.now) }
        ensures line { OnOk result (HasLine S.left self.new) }
    {
        if self.at_word(word)? {
            return Ok(());
        }
        // The line is looked for once more, only to say what is wrong with it.
        let ahead = self.next_front(false)?;
        Err(tell_missing(ahead, self.line_number()))
    }
}
