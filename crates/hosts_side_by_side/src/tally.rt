//! How many commands were played and refused, and how many reports differed.
ghost use Rattle.std.specs.Prelude.{◌<◌};

use crate::kind::{KINDS, WORDS};
use std::io;
use std::io::Print;

/// How many answers are told apart.
const ANSWERS: usize = 14;

/// The causes of refusals, and last what a query answers that finds nothing.
const ANSWER_WORDS: [&str; ANSWERS] = [
    "noid",
    "batch",
    "nobatch",
    "full",
    "gone",
    "inuse",
    "empty",
    "noslot",
    "nonodes",
    "held",
    "alreadyin",
    "wronglayer",
    "notin",
    "-",
];

/// The commands of one kind.
#[derive(Clone, Copy)]
struct Row {
    played: u32,
    answered: [u32; ANSWERS],
}

/// The commands of all kinds, and what came of the scripts.
#[derive(Clone, Copy)]
pub(crate) struct Tally {
    rows: [Row; KINDS],
    scripts: u32,
    differences: u32,
}

/// The last word of a line.
fn last_word(line: &str) -> &str {
    match line.rsplit_once(' ') {
        Some((_front, word)) => word,
        None => line,
    }
}

impl Tally {
    pub(crate) const NOTHING: Tally = Tally {
        rows: [Row {
            played: 0,
            answered: [0; ANSWERS],
        }; KINDS],
        scripts: 0,
        differences: 0,
    };

    /// Counts a command by its line and its reply.
    fn add_reply(&mut self, line: &str, reply: &str) {
        let word = line.split(' ').next().unwrap_or(line);
        let Some(kind) = WORDS.iter().position(|w| *w == word) else {
            return;
        };
        let row = &mut self.rows[kind];
        row.played = row.played.wrapping_add(1);
        let answer = last_word(reply);
        if let Some(place) = ANSWER_WORDS.iter().position(|w| *w == answer) {
            row.answered[place] = row.answered[place].wrapping_add(1);
        }
    }

    /// Counts a script by its text and its reports.
    pub(crate) fn add_script(&mut self, script: &str, plain: &str, shared: &str) {
        for (line, reply) in script.lines().skip(1).zip(plain.lines()) {
            self.add_reply(line, reply);
        }
        self.scripts = self.scripts.wrapping_add(1);
        if plain != shared {
            self.differences = self.differences.wrapping_add(1);
        }
    }

    /// Whether all reports were the same.
    pub(crate) fn agrees(&self) -> bool {
        self.differences == 0
    }

    /// Writes a line for each kind, and how many reports differed.
    pub(crate) fn write(&self, rt: &impl Print) -> io::Result<()> {
        for (word, row) in WORDS.iter().zip(self.rows.iter()) {
            print!(rt; "{word}: {}", row.played)?;
            for (name, count) in ANSWER_WORDS.iter().zip(row.answered.iter()) {
                if *count > 0 {
                    print!(rt; ", {name} {count}")?;
                }
            }
            println!(rt;)?;
        }
        println!(rt;
            "{} scripts, {} differences",
            self.scripts, self.differences
        )
    }
}
