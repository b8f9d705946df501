//! What is told of several searches: their texts one behind the other, and a status.
ghost use Rattle.std.specs.Prelude.{◌≡◌, ◌<◌, [], IfOk, OnOk};
ghost use Rattle.bf_answers.specs.Answers.{IsWholeAnswer};
ghost use Rattle.bf_answers.specs.Tellings.{Says};
ghost use Rattle.bf_commands.specs.Many as many;
ghost use Rattle.bf_many_run.specs.Texts.{AddsText, SaysTexts};
ghost use Rattle.bf_output.specs.declared.status.Status.TheVariants as status;

use bf_answers::Answer;
use bf_io::{Bytes, put_decimal};
use bf_output::Status;
use std::alloc::{AllocError, Global};

/// The texts of the searches so far, and the first status that is not that of a search that was done.
#[derive(Drop)]
pub(crate) struct Texts {
    /// How many searches there are.
    pub count: u32,
    pub status: Status,
    pub text: Bytes,
}

impl Texts {
    /// No search is told yet.
    pub(crate) fn new(alloc: Global) -> Texts
        ensures count { result.count ≡ 0 }
        ensures status { result.status ≡ status.Done }
        ensures text { result.text ≡ [] }
    {
        Texts {
            count: 0,
            status: Status::Done,
            text: Bytes::new(alloc),
        }
    }

    /// Adds the text of the next search, behind its number.
    #[tactic(auto, unfolding(bf_commands::specs::Many::search_line))]
    pub(crate) fn add(&mut self, answer: &Answer) -> Result<(), AllocError>
        requires count { self.old.count < 64 }
        ensures { OnOk result (AddsText self.old answer.now self.new) }
    {
        self.count += 1;
        self.text.append(b"search ")?;
        put_decimal(&mut self.text, u64::from(self.count))?;
        self.text.append(b"\n")?;
        self.text.append(answer.text.as_slice())?;
        if self.status == Status::Done {
            self.status = answer.status;
        }
        Ok(())
    }

    /// The answer that tells all searches.
    pub(crate) fn into_answer(self) -> Answer
        ensures { SaysTexts self result }
    {
        let Texts { status, text, .. } = self;
        Answer { status, text }
    }
}

/// The answer to a list whose line of this number is refused.
#[tactic(auto, unfolding(bf_commands::specs::Many::list_refused))]
pub(crate) fn list_refusal(alloc: Global, line: u32) -> Result<Answer, AllocError>
    ensures tells { IfOk result (Says (many.list_refused line)) }
    ensures whole { IfOk result IsWholeAnswer }
{
    let mut text = Bytes::from_slice(alloc, b"list refused at line ")?;
    put_decimal(&mut text, u64::from(line))?;
    text.append(b"\n")?;
    Ok(Answer {
        status: Status::ListRefused { line },
        text,
    })
}
