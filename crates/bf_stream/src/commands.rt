//! Commands.
ghost use Rattle.bf_grammar.specs.Commands as grammar;
ghost use Rattle.bf_stream.specs.Parts.{blob_from, commit_from, tag_from, reset_from};
ghost use Rattle.bf_stream.specs.Standing.{EndsWhole, HasLine, Reads, TakesIfSome};

use crate::Reader;
use bf_forms::{FirstLine, first_line};
use bf_grammar::{Command, Commit, Header, StreamFault};
use bf_io::{Bytes, Source};

impl<'a, S: Source> Reader<'a, S> {
    /// The next command of the stream, or `None` at its end. Each command takes at least one byte.
    pub(crate) fn command(&mut self) -> Result<Option<Command>, StreamFault>
        ensures reads { Reads S.left S.faults self.old self.new result grammar.command_at }
        ensures takes { TakesIfSome self.old self.new result }
        ensures whole { EndsWhole S.left self.new result }
    {
        if self.cursor.at_command()? {
            return self.command_in_front();
        }
        if self.cursor.is_done_due() {
            return Err(StreamFault::NoDone {
                line: self.cursor.line_number(),
            });
        }
        Ok(None)
    }

    /// The command whose first line is in front.
    fn command_in_front(&mut self) -> Result<Option<Command>, StreamFault>
        requires { HasLine S.left self.old }
        ensures reads { Reads S.left S.faults self.old self.new result grammar.headed_at }
        ensures takes { TakesIfSome self.old self.new result }
        ensures whole { EndsWhole S.left self.new result }
    {
        let alloc = self.cursor.allocator();
        let line = self.cursor.line_number();
        match first_line(line, self.cursor.line())? {
            FirstLine::Done => Ok(None),
            FirstLine::Blob => {
                self.cursor.take_line();
                Ok(Some(self.blob(line)?))
            }
            FirstLine::Commit(name) => {
                let branch = Bytes::from_slice(alloc, name)?;
                self.cursor.take_line();
                Ok(Some(self.commit(line, branch)?))
            }
            FirstLine::Tag(name) => {
                let name = Bytes::from_slice(alloc, name)?;
                self.cursor.take_line();
                Ok(Some(self.tag(line, name)?))
            }
            FirstLine::Reset(name) => {
                let branch = Bytes::from_slice(alloc, name)?;
                self.cursor.take_line();
                Ok(Some(self.reset(line, branch)?))
            }
            FirstLine::Progress => {
                self.cursor.take_line();
                Ok(Some(Command::Progress { line }))
            }
            FirstLine::Feature => {
                self.cursor.take_line();
                Ok(Some(Command::Feature { line }))
            }
            FirstLine::FeatureDone => {
                self.cursor.take_line();
                self.cursor.make_done_due();
                Ok(Some(Command::Feature { line }))
            }
        }
    }

    /// The parts of a `blob`.
    fn blob(&mut self, line: u64) -> Result<Command, StreamFault>
        ensures { Reads S.left S.faults self.old self.new result (blob_from line) }
    {
        let mark = self.mark()?;
        self.original_oid()?;
        let content = self.data()?;
        Ok(Command::Blob {
            line,
            mark,
            content,
        })
    }

    /// The parts of a `commit`.
    fn commit(&mut self, line: u64, branch: Bytes) -> Result<Command, StreamFault>
        ensures { Reads S.left S.faults self.old self.new result (commit_from line branch) }
    {
        let mark = self.mark()?;
        let header = self.header()?;
        let from = self.target(b"from")?;
        let merges = self.merges()?;
        let changes = self.changes()?;
        Ok(Command::Commit(Commit {
            line,
            branch,
            mark,
            header,
            from,
            merges,
            changes,
        }))
    }

    /// The name that a commit had, who wrote and who committed it, and what they say of it.
    fn header(&mut self) -> Result<Header, StreamFault>
        ensures { Reads S.left S.faults self.old self.new result grammar.header_at }
    {
        let original = self.original_oid()?;
        let author = self.optional_ident(b"author")?;
        let committer = self.committer()?;
        let encoding = self.encoding()?;
        self.no_signature()?;
        let message = self.data()?;
        Ok(Header {
            original,
            author,
            committer,
            encoding,
            message,
        })
    }

    /// The parts of a `tag`.
    fn tag(&mut self, line: u64, name: Bytes) -> Result<Command, StreamFault>
        ensures { Reads S.left S.faults self.old self.new result (tag_from line name) }
    {
        let mark = self.mark()?;
        let from = self.required_from()?;
        self.original_oid()?;
        self.optional_ident(b"tagger")?;
        self.data()?;
        Ok(Command::Tag {
            line,
            name,
            mark,
            from,
        })
    }

    /// The parts of a `reset`.
    fn reset(&mut self, line: u64, branch: Bytes) -> Result<Command, StreamFault>
        ensures { Reads S.left S.faults self.old self.new result (reset_from line branch) }
    {
        let from = self.target(b"from")?;
        Ok(Command::Reset { line, branch, from })
    }
}
