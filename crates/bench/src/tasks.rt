//! What a task does, and what is told of it.

use crate::farm::{self, Task};
use crate::history::{Shape, shape_named};
use crate::{contents, forest, stream, weights};
use anyhow::{Context, bail};
use bf_io::Source;
use std::alloc::Global;

/// What is told of a task, and how many words it has with its name.
#[derive(Drop)]
pub struct Told {
    pub text: String,
    pub words: usize,
}

/// Does the task that these words begin with.
pub fn done<S: Source>(alloc: Global, source: &mut S, words: &[String]) -> anyhow::Result<Told> {
    let (text, count) = match word(words, 0)? {
        "weights" => (weigh(alloc, words)?, 3),
        "farm" => (search(alloc, words)?, 5),
        "forest" => (edit(alloc, words)?, 5),
        "stream" => (stream::counted(alloc, source)?, 1),
        "import" => (contents::numbers(alloc, source, false)?, 1),
        "contents" => (contents::numbers(alloc, source, true)?, 1),
        _ => bail!("no such task"),
    };
    Ok(Told { text, words: count })
}

fn weigh(alloc: Global, words: &[String]) -> anyhow::Result<String> {
    let (name, count) = (word(words, 1)?, number(words, 2)?);
    let text = weights::weighed(alloc, shape(words, 1)?, count)?;
    Ok(format!(in alloc; "{name} {count}: {text}")?)
}

fn search(alloc: Global, words: &[String]) -> anyhow::Result<String> {
    let (name, kind) = (word(words, 1)?, word(words, 2)?);
    let (count, workers) = (number(words, 3)?, number(words, 4)?);
    let task = Task::named(name).context("no such task of a farm")?;
    let places = farm::done(alloc, task, shape(words, 2)?, count, workers)?;
    Ok(format!(in alloc; "{name} {kind} {count} {workers}: {places} places")?)
}

fn edit(alloc: Global, words: &[String]) -> anyhow::Result<String> {
    let shape = forest::Shape {
        directories: number(words, 1)?,
        subdirectories: number(words, 2)?,
        files: number(words, 3)?,
    };
    forest::edited(alloc, shape, number(words, 4)?)
}

/// The word at a place, of which the name of the task is the first.
fn word(words: &[String], at: usize) -> anyhow::Result<&str> {
    let found = words.get(at).context("the words of a task are missing")?;
    Ok(found.as_str())
}

fn number(words: &[String], at: usize) -> anyhow::Result<u32> {
    Ok(word(words, at)?.parse::<u32>()?)
}

fn shape(words: &[String], at: usize) -> anyhow::Result<Shape> {
    let named = shape_named(word(words, at)?).context("no such shape of histories")?;
    Ok(named)
}
