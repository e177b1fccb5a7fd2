//! Rows of several calls.

use crate::disks::Site;
use anyhow::{Context, Result, bail};
use std::alloc::Global;
use std::ops::Range;
use test_rows::{Answer, Layer, cut, cut_at, number};

/// What the rows speak to.
#[derive(Drop)]
pub struct Scripts {
    site: Site,
}

/// Adds what a call gives to what those before it gave, but for `ok`; `-` stands for nothing.
fn join(answers: &mut Answer, given: &str) {
    if given == "ok" {
        return;
    }
    if !answers.as_str().is_empty() {
        answers.say(" ; ");
    }
    answers.say(if given.is_empty() { "-" } else { given });
}

/// The numbers of a range, as `1..5`.
fn range(written: &str) -> Result<Range<u64>> {
    let (start, end) = written.split_once("..").context("no range")?;
    Ok(number(start)?..number(end)?)
}

impl Scripts {
    pub fn new(alloc: Global) -> Scripts {
        Scripts {
            site: Site::new(alloc),
        }
    }

    /// Adds what a call gives, and for `again` what it gives once more where the disk failed. Of what `any` gives
    /// nothing is added, whatever it is.
    fn step(&mut self, rt: &HostRuntime, answers: &mut Answer, written: &str) -> Result<()> {
        let (word, call) = cut(written);
        if word == "any" {
            let _given = self.site.answer(rt, call);
            return Ok(());
        }
        let is_again = word == "again";
        let mut given = self.site.answer(rt, if is_again { call } else { written })?;
        if is_again && given.as_str() == "91 DiskFault" {
            given = self.site.answer(rt, call)?;
        }
        join(answers, given.as_str());
        Ok(())
    }

    /// What calls with ` ; ` between two of them give in turn.
    fn script(&mut self, rt: &HostRuntime, answers: &mut Answer, calls: &str) -> Result<()> {
        for written in calls.split(" ; ") {
            self.step(rt, answers, written)?;
        }
        if answers.as_str().is_empty() {
            answers.say("ok");
        }
        Ok(())
    }

    /// What a script gives with a number in place of `#`, which is to be what it gave with the numbers before.
    fn numbered(
        &mut self,
        rt: &HostRuntime,
        answer: &mut Answer,
        script: &str,
        number: u64,
    ) -> Result<()> {
        let (front, back) = cut_at(script, '#');
        let calls = format!(in rt.alloc(); "{front}{number}{back}")?;
        let mut given = Answer::new(rt.alloc());
        self.script(rt, &mut given, calls.as_str())?;
        if answer.as_str().is_empty() {
            answer.say(given.as_str());
        } else if answer.as_str() != given.as_str() {
            bail!("with {number} it is {}", given.as_str());
        }
        Ok(())
    }

    /// What a script gives with each number in place of `#`, as `1..5 disk test # 0 - ; disk sync`.
    fn each(&mut self, rt: &HostRuntime, answer: &mut Answer, words: &str) -> Result<()> {
        let (written, script) = cut(words);
        for place in range(written)? {
            self.numbered(rt, answer, script, place)?;
        }
        Ok(())
    }
}

impl Layer for Scripts {
    fn answer(&mut self, rt: &HostRuntime, call: &str) -> Result<String> {
        let mut answer = Answer::new(rt.alloc());
        match call.strip_prefix("each ") {
            Some(words) => self.each(rt, &mut answer, words)?,
            None => self.script(rt, &mut answer, call)?,
        }
        answer.into_text()
    }
}
