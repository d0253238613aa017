//! How many calls were made, refused and answered otherwise.
use crate::answers::{Answer, Answers};
use crate::kind::{CAUSE_NAMES, CAUSES, KINDS, Kind, cause_place};
use std::io;
use std::io::Print;

/// The calls of one kind.
#[derive(Clone, Copy)]
struct Row {
    made: u32,
    refused: [u32; CAUSES],
}

/// The calls of all kinds, and how many were answered otherwise by the plain side.
#[derive(Clone, Copy)]
pub(crate) struct Tally {
    rows: [Row; KINDS],
    /// How many ids the queries answered.
    ids: u32,
    differences: u32,
}

impl Tally {
    pub(crate) const NOTHING: Tally = Tally {
        rows: [Row {
            made: 0,
            refused: [0; CAUSES],
        }; KINDS],
        ids: 0,
        differences: 0,
    };

    /// Counts a call.
    pub(crate) fn add(&mut self, kind: Kind, answers: Answers) {
        let row = &mut self.rows[kind.place()];
        row.made = row.made.wrapping_add(1);
        if let Answer::Refused(refusal) = answers.shared {
            let place = cause_place(refusal);
            row.refused[place] = row.refused[place].wrapping_add(1);
        }
        if let Answer::Found { ids } = answers.shared {
            self.ids = self.ids.wrapping_add(ids);
        }
        if answers.shared != answers.plain {
            self.differences = self.differences.wrapping_add(1);
        }
    }

    /// Whether both sides always answered the same.
    pub(crate) fn agrees(&self) -> bool {
        self.differences == 0
    }

    /// Writes a line for each kind, and how many differences there were.
    pub(crate) fn write(&self, rt: &impl Print) -> io::Result<()> {
        for kind in Kind::ALL {
            let row = self.rows[kind.place()];
            print!(rt; "{}: {}", kind.name(), row.made)?;
            for (name, count) in CAUSE_NAMES.iter().zip(row.refused.iter()) {
                if *count > 0 {
                    print!(rt; ", {name} {count}")?;
                }
            }
            println!(rt;)?;
        }
        println!(rt; "ids of all queries: {}", self.ids)?;
        println!(rt; "{} differences", self.differences)
    }
}
