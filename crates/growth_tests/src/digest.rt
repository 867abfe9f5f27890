//! Digests of values, made without an allocation.

use ltl_alt::{Edges, Gba, PairSet};
use ltl_buchi::{Ba, Gen};
use ltl_check::{Outcome, Taken, Verdict, Walk};
use ltl_claim::{Claim, ClaimMove, GuardStep};
use ltl_formula::{Row, Table};
use ltl_hoa::{HoaNames, Marked};
use ltl_sets::{Cube, RowSet};
use ltl_syntax::{Formula, text_to};
use ltl_word::Lasso;
use std::alloc::Allocator;
use std::io;
use std::io::Write;

/// A number that depends on all values that were added, and on their order.
#[derive(Clone, Copy, PartialEq, Eq)]
pub(crate) struct Digest {
    sum: u64,
}

impl Write for Digest {
    fn write(&mut self, buf: &[u8]) -> io::Result<usize> {
        for byte in buf {
            self.take(*byte as usize);
        }
        Ok(buf.len())
    }

    fn flush(&mut self) -> io::Result<()> {
        Ok(())
    }
}

impl Digest {
    pub(crate) fn new() -> Digest {
        Digest {
            sum: 0xcbf2_9ce4_8422_2325,
        }
    }

    pub(crate) fn take(&mut self, number: usize) {
        self.sum = (self.sum ^ number as u64).wrapping_mul(0x0100_0000_01b3);
    }

    pub(crate) fn with(mut self, other: Digest) -> Digest {
        self.take(other.sum as usize);
        self
    }

    fn cube(&mut self, cube: &Cube) {
        for literal in cube.iter() {
            self.take(literal.proposition);
            self.take(literal.positive as usize);
        }
        self.take(usize::MAX);
    }

    fn rows(&mut self, rows: &RowSet) {
        for row in rows.iter() {
            self.take(row);
        }
        self.take(usize::MAX);
    }

    /// Adds a name, or that there is none.
    fn name(&mut self, name: Option<&[u8]>) {
        if let Some(bytes) = name {
            for byte in bytes {
                self.take(*byte as usize);
            }
        }
        self.take(usize::MAX - name.is_some() as usize);
    }

    /// Adds a row of a table.
    fn row(&mut self, row: Row) {
        let (kind, first, second) = match row {
            Row::True => (0, 0, 0),
            Row::False => (1, 0, 0),
            Row::Literal(literal) => (2, literal.proposition, literal.positive as usize),
            Row::Next(operand) => (3, operand, 0),
            Row::And(left, right) => (4, left, right),
            Row::Or(left, right) => (5, left, right),
            Row::Until(left, right) => (6, left, right),
            Row::Release(left, right) => (7, left, right),
        };
        self.take(kind);
        self.take(first);
        self.take(second);
    }

    fn steps(&mut self, steps: &[Taken]) {
        for step in steps {
            self.take(step.state);
            self.take(step.pick);
            self.rows(&step.letter);
        }
        self.take(usize::MAX);
    }

    fn guard_step(&mut self, step: GuardStep) {
        let (kind, number) = match step {
            GuardStep::Constant(value) => (0, value as usize),
            GuardStep::Name(name) => (1, name),
            GuardStep::Not => (2, 0),
            GuardStep::And => (3, 0),
            GuardStep::Or => (4, 0),
        };
        self.take(kind);
        self.take(number);
    }

    /// Adds the moves of a statement.
    fn moves<A: Allocator>(&mut self, moves: &[ClaimMove<'_, A>]) {
        for one in moves {
            for step in one.guard() {
                self.guard_step(*step);
            }
            self.take(one.target());
        }
        self.take(usize::MAX);
    }

    fn edges(&mut self, edges: Edges<'_>) {
        for place in 0..edges.len() {
            let edge = edges.get(place);
            self.cube(&edge.cube);
            self.take(edge.target);
            self.rows(&edge.marks);
        }
        self.take(usize::MAX);
    }
}

pub(crate) fn of_formula<A: Allocator>(formula: &Formula<'_, A>) -> Digest {
    let mut digest = Digest::new();
    let written = text_to(formula, &mut digest).is_ok();
    digest.take(written as usize);
    digest.take(formula.len());
    digest.take(formula.name_count());
    digest
}

pub(crate) fn of_table<A: Allocator>(table: &Table<'_, A>) -> Digest {
    let mut digest = Digest::new();
    for i in 0..table.len() {
        digest.row(table.row(i));
    }
    digest.take(usize::MAX);
    for row in table.untils() {
        digest.take(*row);
    }
    for row in table.elementary() {
        digest.take(*row);
    }
    digest
}

pub(crate) fn of_pairs<A: Allocator>(pairs: &PairSet<'_, A>) -> Digest {
    let mut digest = Digest::new();
    for pair in pairs.as_slice() {
        digest.cube(&pair.cube);
        digest.rows(&pair.targets);
    }
    digest
}

pub(crate) fn of_gba<A: Allocator>(automaton: &Gba<'_, A>) -> Digest {
    let mut digest = Digest::new();
    digest.take(automaton.sets());
    for i in 0..automaton.len() {
        digest.edges(automaton.edges(i));
    }
    digest
}

pub(crate) fn of_gen<A: Allocator>(automaton: &Gen<'_, A>) -> Digest {
    let mut digest = Digest::new();
    digest.take(automaton.sets());
    for i in 0..automaton.len() {
        digest.edges(automaton.edges(i));
    }
    digest
}

pub(crate) fn of_ba<A: Allocator>(automaton: &Ba<'_, A>) -> Digest {
    let mut digest = Digest::new();
    for i in 0..automaton.len() {
        digest.take(automaton.accepting(i) as usize);
        let edges = automaton.edges(i);
        for place in 0..edges.len() {
            let edge = edges.get(place);
            digest.cube(&edge.cube);
            digest.take(edge.target);
        }
        digest.take(usize::MAX);
    }
    digest
}

pub(crate) fn of_marked<A: Allocator>(automaton: &Marked<'_, A>) -> Digest {
    let mut digest = Digest::new();
    digest.take(automaton.start());
    digest.take(automaton.sets());
    for name in automaton.names() {
        for byte in name.as_bytes() {
            digest.take(*byte as usize);
        }
        digest.take(usize::MAX);
    }
    for i in 0..automaton.len() {
        for edge in automaton.edges(i) {
            digest.cube(&edge.cube);
            digest.take(edge.target);
            digest.rows(&edge.sets.to_row_set());
        }
        digest.take(usize::MAX);
    }
    digest
}

/// The digest of the names of an automaton and of its first few states.
pub(crate) fn of_names<A: Allocator>(names: &HoaNames<'_, A>) -> Digest {
    let mut digest = Digest::new();
    digest.name(names.automaton());
    for i in 0..4 {
        digest.name(names.state(i));
    }
    digest
}

pub(crate) fn of_word<A: Allocator>(word: &Lasso<'_, A>) -> Digest {
    let mut digest = Digest::new();
    let written = word.text_to(&mut digest).is_ok();
    digest.take(written as usize);
    digest
}

pub(crate) fn of_verdict<A: Allocator>(verdict: &Verdict<'_, A>) -> Digest {
    let mut digest = match verdict.outcome() {
        Outcome::Contained => Digest::new(),
        Outcome::Violated(word) => of_word(word),
    };
    digest.take((verdict.steps() % 0x1_0000_0000) as usize);
    digest
}

pub(crate) fn of_walk<A: Allocator>(walk: &Option<Walk<'_, A>>) -> Digest {
    let mut digest = Digest::new();
    if let Some(walk) = walk {
        digest.steps(&walk.stem);
        digest.steps(&walk.cycle);
    }
    digest
}

pub(crate) fn of_claim<A: Allocator>(claim: &Claim<'_, A>) -> Digest {
    let mut digest = Digest::new();
    digest.take(claim.start());
    for name in claim.names() {
        digest.name(Some(name.as_bytes()));
    }
    for i in 0..claim.len() {
        digest.take(claim.accepting(i) as usize);
        digest.moves(claim.moves(i));
    }
    digest
}

pub(crate) fn of_text<A: Allocator>(text: &Vec<u8, &A>) -> Digest {
    let mut digest = Digest::new();
    digest.name(Some(text.as_slice()));
    digest
}
