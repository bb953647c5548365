//! The asks, and the tables behind each of them.
use desk_front::Front;
use harness_desk::{DeskRun, ReplyKind, asked_in_memory, front_of, script};
use std::alloc::Global;
use std::test::Fail;

/// What is asked, one ask after the other.
#[derive(Drop)]
pub struct Script {
    pub front: Front,
    asks: Vec<&'static str>,
    /// The tables before the asks and behind each of them, as texts, as a desk in memory has them.
    texts: Vec<String>,
    /// For each ask, a desk in memory that is asked it twice, and then the rest.
    twice: Vec<DeskRun>,
}

/// The tables behind these asks, as a desk in memory has them that does each.
fn text_behind(alloc: Global, front: &Front, asks: &[&str]) -> Result<String, Fail> {
    let DeskRun { answers, left, .. } = asked_in_memory(alloc, front, asks)?;
    let are_done = answers.iter().all(|answer| *answer == ReplyKind::Done);
    if !are_done || answers.len() != asks.len() {
        return Err(Fail::from("an ask isn't done in memory"));
    }
    match left {
        Some(text) => Ok(text),
        None => Err(Fail::from("a desk in memory has no tables")),
    }
}

fn texts_of(alloc: Global, front: &Front, asks: &[&str]) -> Result<Vec<String>, Fail> {
    let mut texts = Vec::new(alloc);
    for count in 0..=asks.len() {
        texts.push(text_behind(alloc, front, &asks[..count])?)?;
    }
    Ok(texts)
}

/// A desk in memory that is asked the ask of this place twice, and then the rest.
fn asked_twice(
    alloc: Global,
    front: &Front,
    asks: &[&'static str],
    place: usize,
) -> Result<DeskRun, Fail> {
    let mut lines = Vec::new(alloc);
    for (at, line) in asks.iter().enumerate() {
        lines.push(*line)?;
        if at == place {
            lines.push(*line)?;
        }
    }
    asked_in_memory(alloc, front, lines.as_slice())
}

fn all_twice(alloc: Global, front: &Front, asks: &[&'static str]) -> Result<Vec<DeskRun>, Fail> {
    let mut runs = Vec::new(alloc);
    for place in 0..asks.len() {
        runs.push(asked_twice(alloc, front, asks, place)?)?;
    }
    Ok(runs)
}

impl Script {
    pub fn new(alloc: Global) -> Result<Script, Fail> {
        let front = front_of(alloc)?;
        let asks = script(alloc)?;
        let texts = texts_of(alloc, &front, asks.as_slice())?;
        let twice = all_twice(alloc, &front, asks.as_slice())?;
        Ok(Script {
            front,
            asks,
            texts,
            twice,
        })
    }

    pub fn asks(&self) -> &[&'static str] {
        self.asks.as_slice()
    }

    /// The asks behind the first ones.
    pub(crate) fn rest(&self, done: usize) -> &[&'static str] {
        let asks = self.asks.as_slice();
        &asks[done.min(asks.len())..]
    }

    /// Whether these are the tables behind so many asks.
    pub(crate) fn is_text(&self, done: usize, text: &String) -> bool {
        self.texts.get(done) == Some(text)
    }

    /// Whether these are the tables behind all asks.
    pub(crate) fn is_last(&self, text: &String) -> bool {
        self.texts.last() == Some(text)
    }

    /// Whether a desk that had done the ask of this place answers it again, and the rest, as one in memory does, and
    /// ends with the same tables.
    pub(crate) fn is_twice(&self, place: usize, seen: &DeskRun) -> bool {
        let Some(run) = self.twice.get(place) else {
            return false;
        };
        match run.answers.get(place.saturating_add(1)..) {
            Some(answers) => answers == seen.answers.as_slice() && run.left == seen.left,
            None => false,
        }
    }

    /// The asks that leave other tables if they are asked twice: they make something new each time.
    pub fn changing_twice(&self, alloc: Global) -> Result<Vec<&'static str>, Fail> {
        let mut lines = Vec::new(alloc);
        for (line, run) in self.asks.iter().zip(&self.twice) {
            if run.left.as_ref() != self.texts.last() {
                lines.push(*line)?;
            }
        }
        Ok(lines)
    }
}
