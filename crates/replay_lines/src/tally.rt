// What the lines came to, counted and printed. The counts wrap, which no run lives to see.
use crate::kind::{Kind, NAMES};
use std::fmt;

// The numbers of kinds are below it.
const KINDS: usize = Kind::WindowGain as usize + 1;

// How many of the differing lines are named: the counts tell of the others.
const NAMED: u64 = 10;

// How many answers there were, and how many of them differ.
#[derive(Clone, Copy, Default)]
struct Count {
    answers: u64,
    differ: u64,
}

impl Count {
    fn add(&mut self, is_same: bool) {
        self.answers = self.answers.wrapping_add(1);
        if !is_same {
            self.differ = self.differ.wrapping_add(1);
        }
    }
}

impl fmt::Display for Count {
    fn fmt<W: fmt::Write>(&self, f: &mut fmt::Formatter<W>) -> fmt::Result {
        let answers = self.answers;
        let differ = self.differ;
        write!(f, "{answers} answers, {differ} differ")
    }
}

// How many lines there were, and what they came to, all and by the numbers of their kinds.
#[derive(Clone, Copy, Default)]
pub struct Tally {
    pub lines: u64,
    pub answers: u64,
    pub differ: u64,
    pub unreadable: u64,
    kinds: [Count; KINDS],
}

impl Tally {
    // Those of all kinds.
    fn all(&self) -> Count {
        Count {
            answers: self.answers,
            differ: self.differ,
        }
    }

    // One line more: its kind and whether the answers are the same, or that it cannot be read. What cannot be written
    // is lost, and the run goes on: whoever holds its output to what is wanted finds it missing.
    pub fn note(&mut self, rt: &impl Print, judged: Option<(Kind, bool)>) {
        self.lines = self.lines.wrapping_add(1);
        let line = self.lines;
        let Some((kind, is_same)) = judged else {
            let _ = println!(rt; "line {line} is unreadable");
            self.unreadable = self.unreadable.wrapping_add(1);
            return;
        };
        if !is_same && self.differ < NAMED {
            let _ = println!(rt; "line {line} differs");
        }
        let mut all = self.all();
        all.add(is_same);
        self.answers = all.answers;
        self.differ = all.differ;
        self.kinds[kind as usize].add(is_same);
    }

    // A line for each kind, and one for all of them.
    pub fn print(&self, rt: &impl Print) {
        for (kind, name) in &NAMES {
            let count = self.kinds[*kind as usize];
            let _ = println!(rt; "{name}: {count}");
        }
        let all = self.all();
        let unreadable = self.unreadable;
        let _ = println!(rt; "{all}, {unreadable} unreadable lines");
    }
}
