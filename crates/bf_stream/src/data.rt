//! Data parts.
ghost use Rattle.std.specs.Prelude.{◌≡◌, ◌≤◌, ◌<◌, length, OnOk};
ghost use Rattle.bf_grammar.specs.Lines as lines;
ghost use Rattle.bf_stream.specs.Cursor.{Advances, KeepsBeyond, Reads, delimited_by, left_to_read, limits_of};
ghost use Rattle.bf_stream.specs.Steps.{TakesPiece, TakesContent, TakesWholeLine, delimiter_at};

use crate::Cursor;
use crate::text::{end_of_line, with_end_of_line};
use crate::window::Filled;
use bf_grammar::{Limit, StreamFault};
use bf_io::{Bytes, Source};

impl<'a, S: Source> Cursor<'a, S> {
    /// So many bytes, which the line of this number announced.
    pub fn take_bytes(&mut self, line: u64, count: u64) -> Result<Bytes, StreamFault>
        ensures { Reads S.left S.faults self.old self.new result (λ _. lines.bytes_at line count) }
    {
        let mut bytes = Bytes::new(self.alloc);
        let mut left = count;
        'pieces: while left > 0 {
            left = self.take_piece(line, left, &mut bytes)?;
        }
        Ok(bytes)
    }

    /// Takes what is held of so many bytes, at least one, and returns how many are left.
    fn take_piece(&mut self, line: u64, left: u64, bytes: &mut Bytes) -> Result<u64, StreamFault>
        requires { 0 < left }
        ensures piece { TakesPiece S.left line left self.old self.new bytes.old bytes.new result }
        ensures advances { Advances S.faults self.old self.new result }
        ensures beyond { KeepsBeyond S.left self.old self.new }
        ensures goes { OnOk result (left_to_read self.new < left_to_read self.old) }
    {
        match self.window.fill_if_empty(self.source)? {
            Filled::More => {}
            Filled::End => return Err(StreamFault::Truncated { line }),
            Filled::Past => {
                return Err(StreamFault::TooLarge {
                    what: Limit::Stream,
                });
            }
        }
        let held = self.window.bytes();
        let piece = held.len().min(left as usize);
        bytes.append(&held[..piece])?;
        self.window.take(piece);
        Ok(left - piece as u64)
    }

    /// The lines up to one that is the delimiter alone, which the line of this number announced.
    pub fn take_delimited(&mut self, line: u64, delimiter: &[u8]) -> Result<Bytes, StreamFault>
        requires { length delimiter.now < 65536 }
        ensures { Reads S.left S.faults self.old self.new result (delimited_by line delimiter.now) }
    {
        let mut bytes = Bytes::new(self.alloc);
        'lines: loop {
            if self.take_delimiter(delimiter)? {
                return Ok(bytes);
            }
            self.take_content_line(line, &mut bytes)?;
        }
    }

    /// Goes behind the line in front where it is the delimiter alone.
    fn take_delimiter(&mut self, delimiter: &[u8]) -> Result<bool, StreamFault>
        requires { length delimiter.now < 65536 }
        ensures { Reads S.left S.faults self.old self.new result (delimiter_at delimiter.now) }
    {
        let mut scanned = 0;
        'reads: loop {
            let bytes = self.window.bytes();
            let held = bytes.len();
            let end = end_of_line(bytes, scanned);
            if end < held {
                return Ok(self.window.take_line_if(delimiter));
            }
            if held > delimiter.len() {
                return Ok(false);
            }
            match self.window.fill(self.source)? {
                Filled::More => scanned = held,
                Filled::End => return Ok(self.window.take_line_if(delimiter)),
                Filled::Past => return Ok(false),
            }
        }
    }

    /// Takes the line in front, with its LF, behind the content so far.
    fn take_content_line(&mut self, line: u64, content: &mut Bytes) -> Result<(), StreamFault>
        requires { length content.old ≤ (limits_of self.old).part }
        ensures line { TakesWholeLine S.left line self.old self.new content.old content.new result }
        ensures within { OnOk result (length content.new ≤ (limits_of self.new).part) }
        ensures goes { OnOk result (left_to_read self.new < left_to_read self.old) }
        ensures advances { Advances S.faults self.old self.new result }
        ensures beyond { KeepsBeyond S.left self.old self.new }
    {
        'pieces: loop {
            if self.take_content_piece(line, content)? {
                return Ok(());
            }
        }
    }

    /// Takes what is held of the line in front, at least a byte, and returns whether its LF was taken.
    fn take_content_piece(&mut self, line: u64, content: &mut Bytes) -> Result<bool, StreamFault>
        requires { length content.old ≤ (limits_of self.old).part }
        ensures piece { TakesContent S.left line self.old self.new content.old content.new result }
        ensures within { OnOk result (length content.new ≤ (limits_of self.new).part) }
        ensures goes { OnOk result (left_to_read self.new < left_to_read self.old) }
        ensures advances { Advances S.faults self.old self.new result }
        ensures beyond { KeepsBeyond S.left self.old self.new }
    {
        match self.window.fill_if_empty(self.source)? {
            Filled::More => {}
            Filled::End => return Err(StreamFault::Truncated { line }),
            Filled::Past => {
                return Err(StreamFault::TooLarge {
                    what: Limit::Stream,
                });
            }
        }
        let bytes = self.window.bytes();
        let held = bytes.len();
        let end = end_of_line(bytes, 0);
        let piece = with_end_of_line(end, held);
        if piece as u64 > self.limits.part - content.len() as u64 {
            return Err(StreamFault::TooLarge { what: Limit::Data });
        }
        content.append(&bytes[..piece])?;
        self.window.take(piece);
        Ok(end < held)
    }

    /// Goes past one LF, where one stands in front.
    pub fn skip_end_of_line(&mut self) -> Result<(), StreamFault>
        ensures { Reads S.left S.faults self.old self.new result (λ _. lines.skip_end_of_line) }
    {
        match self.window.fill_if_empty(self.source)? {
            Filled::More => {}
            Filled::End => return Ok(()),
            Filled::Past => {
                return Err(StreamFault::TooLarge {
                    what: Limit::Stream,
                });
            }
        }
        if self.window.bytes()[0] == b'\n' {
            self.window.take(1);
        }
        Ok(())
    }
}
