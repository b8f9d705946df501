//! The changes of the files of a commit: `M`, `D` and `deleteall`.
ghost use Rattle.bf_grammar.specs.Commands as grammar;
ghost use Rattle.bf_grammar.specs.Commands.{delete_at, delete_all_at};
ghost use Rattle.bf_stream.specs.Parts.{content_named};
ghost use Rattle.bf_stream.specs.Standing.{HasLine, Reads, Takes, TakesIfSome};

use crate::Reader;
use bf_forms::{delete_all_of, modify_line, text_after};
use bf_grammar::{Change, Changes, ContentForm, DataRef, StreamFault};
use bf_io::{Bytes, Source};

impl<'a, S: Source> Reader<'a, S> {
    /// The changes, in order.
    pub(crate) fn changes(&mut self) -> Result<Changes, StreamFault>
        ensures { Reads S.left S.faults self.old self.new result grammar.changes_at }
    {
        let mut changes = Changes::new(self.cursor.allocator());
        'changes: loop {
            match self.change()? {
                Some(change) => changes.push(change)?,
                None => return Ok(changes),
            }
        }
    }

    /// A change, where one stands in front.
    fn change(&mut self) -> Result<Option<Change>, StreamFault>
        ensures reads { Reads S.left S.faults self.old self.new result grammar.change_at }
        ensures takes { TakesIfSome self.old self.new result }
    {
        if self.cursor.at_word(b"M")? {
            return Ok(Some(self.modify()?));
        }
        if self.cursor.at_word(b"D")? {
            return Ok(Some(self.delete()?));
        }
        if self.cursor.at_word(b"deleteall")? {
            return Ok(Some(self.delete_all()?));
        }
        Ok(None)
    }

    /// `M <mode> <dataref> <path>`, which is in front, with its data part.
    fn modify(&mut self) -> Result<Change, StreamFault>
        requires { HasLine S.left self.old }
        ensures reads { Reads S.left S.faults self.old self.new result grammar.modify_at }
        ensures takes { Takes self.old self.new result }
    {
        let alloc = self.cursor.allocator();
        let line = self.cursor.line_number();
        let read = modify_line(line, self.cursor.line())?;
        let mode = read.mode;
        let form = read.content;
        let path = Bytes::from_slice(alloc, read.path)?;
        self.cursor.take_line();
        let dataref = self.dataref(form)?;
        Ok(Change::Modify {
            line,
            mode,
            dataref,
            path,
        })
    }

    /// The content of a changed file.
    fn dataref(&mut self, form: ContentForm) -> Result<DataRef, StreamFault>
        ensures { Reads S.left S.faults self.old self.new result (content_named form) }
    {
        match form {
            ContentForm::Mark(mark) => Ok(DataRef::Mark(mark)),
            ContentForm::Name(name) => Ok(DataRef::Name(name)),
            ContentForm::Inline => Ok(DataRef::Inline(self.data()?)),
        }
    }

    /// `D <path>`, which is in front.
    fn delete(&mut self) -> Result<Change, StreamFault>
        requires { HasLine S.left self.old }
        ensures reads { Reads S.left S.faults self.old self.new result (λ _. delete_at) }
        ensures takes { Takes self.old self.new result }
    {
        let alloc = self.cursor.allocator();
        let line = self.cursor.line_number();
        let text = text_after(line, b"D", self.cursor.line())?;
        let path = Bytes::from_slice(alloc, text)?;
        self.cursor.take_line();
        Ok(Change::Delete { line, path })
    }

    /// `deleteall`, which is in front.
    fn delete_all(&mut self) -> Result<Change, StreamFault>
        requires { HasLine S.left self.old }
        ensures reads { Reads S.left S.faults self.old self.new result (λ _. delete_all_at) }
        ensures takes { Takes self.old self.new result }
    {
        let line = self.cursor.line_number();
        delete_all_of(line, self.cursor.line())?;
        self.cursor.take_line();
        Ok(Change::DeleteAll { line })
    }
}
