//! The parts of a command: lines that begin with their word, and data parts.
ghost use Rattle.std.specs.Prelude.{◌≡◌, IfOk, Some};
ghost use Rattle.bf_grammar.specs.Commands as grammar;
ghost use Rattle.bf_grammar.specs.Commands.{where_asked};
ghost use Rattle.bf_stream.specs.Cursor.{IsShortWord};
ghost use Rattle.bf_stream.specs.Parts.{ident_behind, ident_in, target_behind, target_in};
ghost use Rattle.bf_stream.specs.Standing.{HasLine, Reads, Takes, TakesIfSome};

use crate::Reader;
use bf_forms::{DataLine, data_line, encoding_of, ident_of, mark_of, text_after};
use bf_grammar::{StreamFault, Target, Targets};
use bf_io::{Bytes, Source};
use std::alloc::{AllocError, Global};

impl<'a, S: Source> Reader<'a, S> {
    /// `mark :<n>`, where it stands.
    pub(crate) fn mark(&mut self) -> Result<Option<u64>, StreamFault>
        ensures { Reads S.left S.faults self.old self.new result grammar.mark_at }
    {
        if !self.cursor.at_word(b"mark")? {
            return Ok(None);
        }
        let mark = mark_of(self.cursor.line_number(), self.cursor.line())?;
        self.cursor.take_line();
        Ok(Some(mark))
    }

    /// `original-oid <text>`, where it stands. The text is given where original names are asked for.
    pub(crate) fn original_oid(&mut self) -> Result<Option<Bytes>, StreamFault>
        ensures { Reads S.left S.faults self.old self.new result grammar.original_oid_at }
    {
        if !self.cursor.at_word(b"original-oid")? {
            return Ok(None);
        }
        let alloc = self.cursor.allocator();
        let limits = self.cursor.limits();
        let line = self.cursor.line_number();
        let text = text_after(line, b"original-oid", self.cursor.line())?;
        let kept = kept_where(alloc, limits.original_names, text)?;
        self.cursor.take_line();
        Ok(kept)
    }

    /// `author <ident>` or `tagger <ident>`, where it stands.
    #[inline(always)]
    pub(crate) fn optional_ident(&mut self, word: &[u8]) -> Result<Option<Bytes>, StreamFault>
        requires { IsShortWord word.now }
        ensures { Reads S.left S.faults self.old self.new result (ident_behind word.now) }
    {
        if !self.cursor.at_word(word)? {
            return Ok(None);
        }
        Ok(Some(self.ident_in_front(word)?))
    }

    /// `committer <ident>`, which must stand.
    pub(crate) fn committer(&mut self) -> Result<Bytes, StreamFault>
        ensures { Reads S.left S.faults self.old self.new result grammar.committer_at }
    {
        self.cursor.must_be_at(b"committer")?;
        self.ident_in_front(b"committer")
    }

    /// The ident of the line in front, which begins with this word.
    #[inline(always)]
    fn ident_in_front(&mut self, word: &[u8]) -> Result<Bytes, StreamFault>
        requires { HasLine S.left self.old }
        ensures { Reads S.left S.faults self.old self.new result (ident_in word.now) }
    {
        let alloc = self.cursor.allocator();
        let text = ident_of(self.cursor.line_number(), word, self.cursor.line())?;
        let ident = Bytes::from_slice(alloc, text)?;
        self.cursor.take_line();
        Ok(ident)
    }

    /// `encoding <text>`, where it stands.
    pub(crate) fn encoding(&mut self) -> Result<Option<Bytes>, StreamFault>
        ensures { Reads S.left S.faults self.old self.new result grammar.encoding_at }
    {
        if !self.cursor.at_word(b"encoding")? {
            return Ok(None);
        }
        let alloc = self.cursor.allocator();
        let text = encoding_of(self.cursor.line_number(), self.cursor.line())?;
        let encoding = Bytes::from_slice(alloc, text)?;
        self.cursor.take_line();
        Ok(Some(encoding))
    }

    /// Sees that no `gpgsig` stands in front: signatures are not supported.
    pub(crate) fn no_signature(&mut self) -> Result<(), StreamFault>
        ensures { Reads S.left S.faults self.old self.new result grammar.no_signature_at }
    {
        if self.cursor.at_word(b"gpgsig")? {
            return Err(StreamFault::Unsupported {
                line: self.cursor.line_number(),
            });
        }
        Ok(())
    }

    /// `from <target>` or `merge <target>`, where it stands.
    #[inline(always)]
    pub(crate) fn target(&mut self, word: &[u8]) -> Result<Option<Target>, StreamFault>
        requires { IsShortWord word.now }
        ensures reads { Reads S.left S.faults self.old self.new result (target_behind word.now) }
        ensures takes { TakesIfSome self.old self.new result }
    {
        if !self.cursor.at_word(word)? {
            return Ok(None);
        }
        Ok(Some(self.target_in_front(word)?))
    }

    /// `from <target>`, which must stand.
    pub(crate) fn required_from(&mut self) -> Result<Target, StreamFault>
        ensures { Reads S.left S.faults self.old self.new result grammar.from_at }
    {
        self.cursor.must_be_at(b"from")?;
        self.target_in_front(b"from")
    }

    /// The target of the line in front, which begins with this word.
    #[inline(always)]
    fn target_in_front(&mut self, word: &[u8]) -> Result<Target, StreamFault>
        requires { HasLine S.left self.old }
        ensures reads { Reads S.left S.faults self.old self.new result (target_in word.now) }
        ensures takes { Takes self.old self.new result }
    {
        let alloc = self.cursor.allocator();
        let line = self.cursor.line_number();
        let text = text_after(line, word, self.cursor.line())?;
        let named = Bytes::from_slice(alloc, text)?;
        self.cursor.take_line();
        Ok(Target { line, text: named })
    }

    /// The `merge` lines, in order.
    pub(crate) fn merges(&mut self) -> Result<Targets, StreamFault>
        ensures { Reads S.left S.faults self.old self.new result grammar.merges_at }
    {
        let mut merges = Targets::new(self.cursor.allocator());
        'merges: loop {
            match self.target(b"merge")? {
                Some(merge) => merges.push(merge)?,
                None => return Ok(merges),
            }
        }
    }

    /// The bytes of a data part, which must stand. One LF directly behind it is passed over.
    pub(crate) fn data(&mut self) -> Result<Bytes, StreamFault>
        ensures { Reads S.left S.faults self.old self.new result grammar.data_at }
    {
        self.cursor.must_be_at(b"data")?;
        let bytes = self.content()?;
        self.cursor.skip_end_of_line()?;
        Ok(bytes)
    }

    /// The bytes that the line `data` in front announces.
    fn content(&mut self) -> Result<Bytes, StreamFault>
        requires { HasLine S.left self.old }
        ensures { Reads S.left S.faults self.old self.new result grammar.announced_at }
    {
        let alloc = self.cursor.allocator();
        let limits = self.cursor.limits();
        let line = self.cursor.line_number();
        match data_line(limits, line, self.cursor.line())? {
            DataLine::Counted(count) => {
                self.cursor.take_line();
                self.cursor.take_bytes(line, count)
            }
            DataLine::Delimited(text) => {
                let delimiter = Bytes::from_slice(alloc, text)?;
                self.cursor.take_line();
                self.cursor.take_delimited(line, delimiter.as_slice())
            }
        }
    }
}

/// A text where it is asked for.
fn kept_where(alloc: Global, asked: bool, text: &[u8]) -> Result<Option<Bytes>, AllocError>
    ensures { IfOk result (λ kept. kept ≡ where_asked asked (Some text.now)) }
{
    if asked {
        return Ok(Some(Bytes::from_slice(alloc, text)?));
    }
    Ok(None)
}
