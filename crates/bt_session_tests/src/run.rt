//! An engine, and the events that are to happen to it.

use crate::answers::tell_answer;
use crate::engine::{TestEngine, tell_reports};
use bt_engine::{run_as_promised, run_events};
use bt_machine::{Answer, Event};
use std::alloc::{AllocError, Global};
use std::fmt::Write;

/// An engine, with events that it is still to run.
#[derive(Drop)]
pub struct Run {
    pub engine: TestEngine,
    events: Vec<Event>,
    /// Whether lists are run by `run_events`, and not by `run_as_promised`.
    is_plain: bool,
}

impl Run {
    pub fn new(alloc: Global, engine: TestEngine) -> Self {
        Run {
            engine,
            events: Vec::new(alloc),
            is_plain: false,
        }
    }

    /// From here on lists are run by `run_events`.
    pub fn be_plain(&mut self) {
        self.is_plain = true;
    }

    pub fn push(&mut self, event: Event) -> Result<(), AllocError> {
        self.events.push(event)?;
        Ok(())
    }

    /// Runs the events as one list, and says what they answer.
    pub fn finish(&mut self, alloc: Global, out: &mut String) -> Result<(), AllocError> {
        let answers = self.answers(alloc)?;
        tell_answers(alloc, out, &answers)
    }

    /// The same, but that nothing is said where bytes were only taken and where no event was whole.
    pub fn finish_bytes(&mut self, alloc: Global, out: &mut String) -> Result<(), AllocError> {
        let answers = self.answers(alloc)?;
        tell_whole_answers(alloc, out, &answers)
    }

    /// What the events answer, which have run then.
    fn answers(&mut self, alloc: Global) -> Result<Vec<Answer>, AllocError> {
        let mut answers = Vec::new(alloc);
        run_all(&mut self.engine, &self.events, &mut answers, self.is_plain)?;
        self.events.clear();
        Ok(answers)
    }

    pub fn tell_peers(&self, out: &mut String) -> Result<(), AllocError> {
        let peers = self.engine.peers();
        writeln!(out, "{peers} peers")
    }

    /// How far each file is, and whether all are complete.
    pub fn tell_reports(&self, out: &mut String) -> Result<(), AllocError> {
        tell_reports(out, &self.engine)
    }
}

fn run_all(
    engine: &mut TestEngine,
    events: &[Event],
    answers: &mut Vec<Answer>,
    is_plain: bool,
) -> Result<(), AllocError> {
    if is_plain {
        return run_events(engine, events, answers);
    }
    run_as_promised(engine, events, answers)
}

fn tell_answers(alloc: Global, out: &mut String, answers: &[Answer]) -> Result<(), AllocError> {
    for answer in answers {
        tell_answer(alloc, out, answer)?;
    }
    Ok(())
}

fn tell_whole_answers(
    alloc: Global,
    out: &mut String,
    answers: &[Answer],
) -> Result<(), AllocError> {
    for answer in answers {
        if !is_of_part(answer) {
            tell_answer(alloc, out, answer)?;
        }
    }
    Ok(())
}

/// Whether bytes were only taken, or no event was whole.
fn is_of_part(answer: &Answer) -> bool {
    matches!(answer, Answer::Fed(Ok(())) | Answer::Stepped(Ok(None)))
}
