// What was compared, and how much of it differs.
ghost use Rattle.std.specs.Prelude.{◌≡◌, ◌+◌, ◌-◌, ◌*◌, ◌^◌, min, None, Some, if◌then◌else◌, length, not, eqb};
ghost use Rattle.std.specs.Option.{option_or};
ghost use Rattle.std.specs.List.{count_by};

use std::fmt::Display;
use std::io;

// The most texts that are printed because they differ.
const NAMED: usize = 10;

// How many answers were compared, how many of them differ, and what differs first.
#[derive(Clone, Copy, Debug, PartialEq, Eq)]
pub struct Report<W> {
    answers: usize,
    differ: usize,
    first: Option<W>,
}

// The same for all texts so far.
#[derive(Clone, Copy, Debug, Default, PartialEq, Eq)]
pub struct Tally {
    texts: usize,
    answers: usize,
    differ: usize,
    differing_texts: usize,
}

impl<W: Copy> Report<W> {
    // The report of no comparison.
    pub fn new() -> Report<W>
        ensures answers { result.answers ≡ 0 }
        ensures differ { result.differ ≡ 0 }
        ensures first { result.first ≡ None }
    {
        Report {
            answers: 0,
            differ: 0,
            first: None,
        }
    }

    // The report of one comparison.
    pub fn of(what: W, agrees: bool) -> Report<W>
        ensures answers { result.answers ≡ 1 }
        ensures differ { result.differ ≡ (if agrees then 0 else 1) }
        ensures first { result.first ≡ (if agrees then None else Some what) }
    {
        if agrees {
            Report {
                answers: 1,
                differ: 0,
                first: None,
            }
        } else {
            Report {
                answers: 1,
                differ: 1,
                first: Some(what),
            }
        }
    }

    // This report and that of what was compared next.
    pub fn and(self, next: Report<W>) -> Report<W>
        ensures answers { result.answers ≡ min (self.answers + next.answers) (2 ^ 64 - 1) }
        ensures differ { result.differ ≡ min (self.differ + next.differ) (2 ^ 64 - 1) }
        ensures first { result.first ≡ option_or self.first next.first }
    {
        Report {
            answers: self.answers.saturating_add(next.answers),
            differ: self.differ.saturating_add(next.differ),
            first: self.first.or(next.first),
        }
    }

    // The same report, if each answer is so many numbers, which are counted one by one. An answer that differs still counts once
    // as one that differs; `of_each` counts each of its numbers.
    pub fn counted_by(self, numbers: usize) -> Report<W>
        ensures answers { result.answers ≡ min (self.answers * numbers) (2 ^ 64 - 1) }
        ensures differ { result.differ ≡ self.differ }
        ensures first { result.first ≡ self.first }
    {
        Report {
            answers: self.answers.saturating_mul(numbers),
            differ: self.differ,
            first: self.first,
        }
    }

    // The report of an answer that is several numbers, which are counted one by one.
    pub fn of_each(what: W, agree: &[bool]) -> Report<W>
        ensures answers { result.answers ≡ length agree.now }
        ensures differ { result.differ ≡ count_by not agree.now }
        ensures first { result.first ≡ (if eqb result.differ 0 then None else Some what) }
    {
        let differ = agree.iter().filter(|agrees| !**agrees).count();
        Report {
            answers: agree.len(),
            differ,
            first: if differ == 0 { None } else { Some(what) },
        }
    }
}

impl Tally {
    // Counts the next text. If it differs, and fewer than NAMED texts did before, its line and the name of what differs first are
    // printed.
    pub fn add<W: Copy + Display>(&mut self, rt: &impl Print, report: Report<W>) -> io::Result<()>
        ensures texts { self.new.texts ≡ min (self.old.texts + 1) (2 ^ 64 - 1) }
        ensures answers { self.new.answers ≡ min (self.old.answers + report.answers) (2 ^ 64 - 1) }
        ensures differ { self.new.differ ≡ min (self.old.differ + report.differ) (2 ^ 64 - 1) }
    {
        self.texts = self.texts.saturating_add(1);
        self.answers = self.answers.saturating_add(report.answers);
        self.differ = self.differ.saturating_add(report.differ);
        let Some(first) = report.first else {
            return Ok(());
        };
        self.differing_texts = self.differing_texts.saturating_add(1);
        if NAMED < self.differing_texts {
            return Ok(());
        }
        let line = self.texts;
        println!(rt; "line {line}: {first}")
    }

    pub fn say(self, rt: &impl Print, name: impl Display + Drop) -> io::Result<()> {
        let Tally {
            texts,
            answers,
            differ,
            ..
        } = self;
        println!(rt; "{name}: {texts} texts, {answers} answers compared, {differ} differ")
    }
}

#[cfg(test)]
mod tests {
    use super::*;

    // An answer that differs is one that differs, however many numbers it is.
    #[test]
    fn counts_an_answer_by_its_numbers() -> Result<(), &'static str> {
        for (agrees, differ, first) in [(true, 0, None), (false, 1, Some("words"))] {
            let wanted = Report {
                answers: 4,
                differ,
                first,
            };
            if Report::of("words", agrees).counted_by(4) != wanted {
                return Err("an answer of four numbers is counted otherwise");
            }
        }
        Ok(())
    }
}
