// Changes at random, the same in each run.

use super::scene::change;
use std::alloc::Global;
use vt_base::NoMemory;
use vt_model::Change;

const CHANGES: u32 = 300;

// The names in use are six in a row, and begin one higher after so many changes.
const NAMES: u32 = 6;

const PACE: u32 = 12;

// Every third name is meant for one class, which has these references.
const CLASSES: [&str; 3] = ["Shelf", "Book", "Atlas"];

const FITTING: [[&str; 4]; 3] = [
    ["books", "sub", "shown", "books"],
    ["shelf", "next", "previous", "cites"],
    ["inset", "shelf", "next", "cites"],
];

// Words that fit few objects or none.
const OTHER_CLASSES: [&str; 4] = ["Item", "Door", "Book 1048576", "Book 40"];

const OTHER_NAMES: [&str; 3] = ["_1", "_70", "_x"];

const OTHER_REFERENCES: [&str; 6] = ["books", "shelf", "next", "inset", "pages", "door"];

const CONTAINMENTS: [&str; 6] = ["books", "sub", "inset", "books", "cites", "lent"];

const VALUES: [&str; 10] = [
    "title Rivers",
    "pages 7",
    "lent true",
    "genre MAP",
    "genre .2",
    "genre Rivers",
    "genre .3",
    "pages true",
    "shelf 1",
    "colour 1",
];

/// Numbers that look like chance, and the changes that they choose.
#[derive(Drop)]
pub(super) struct Dice {
    state: u64,
    first: u32,
}

impl Dice {
    pub(super) fn new() -> Dice {
        Dice {
            state: 20_261_201,
            first: 0,
        }
    }

    // A linear congruential generator; the high half of its state is told.
    fn roll(&mut self) -> u32 {
        self.state = self
            .state
            .wrapping_mul(6_364_136_223_846_793_005)
            .wrapping_add(1_442_695_040_888_963_407);
        (self.state >> 33) as u32
    }

    fn word(&mut self, words: &[&'static str]) -> &'static str {
        let roll = self.roll() as usize;
        words.get(roll % words.len().max(1)).copied().unwrap_or("")
    }

    fn number(&mut self) -> u32 {
        self.first.wrapping_add(self.roll() % NAMES)
    }

    fn class(&mut self, number: u32) -> &'static str {
        match self.roll() % 4 {
            0 => self.word(&OTHER_CLASSES),
            _ => CLASSES[(number % 3) as usize],
        }
    }

    fn reference(&mut self, number: u32) -> &'static str {
        match self.roll() % 3 {
            0 => self.word(&OTHER_REFERENCES),
            _ => self.word(&FITTING[(number % 3) as usize]),
        }
    }

    fn line(&mut self, alloc: Global) -> Result<String, NoMemory> {
        let (one, other) = (self.number(), self.number());
        let (class, reference) = (self.class(one), self.reference(one));
        let value = self.word(&VALUES);
        let (name, containment) = (self.word(&OTHER_NAMES), self.word(&CONTAINMENTS));
        Ok(match self.roll() % 19 {
            0 => format!(in alloc; "create {name} {class}")?,
            1..=4 => format!(in alloc; "create n{one} {class}")?,
            5 => format!(in alloc; "delete n{one}")?,
            6..=7 => format!(in alloc; "set n{one} {value}")?,
            8 => format!(in alloc; "unset n{one} {value}")?,
            9..=12 => format!(in alloc; "link n{one} {reference} n{other}")?,
            13..=14 => format!(in alloc; "unlink n{one} {reference} n{other}")?,
            _ => format!(in alloc; "move n{one} n{other} {containment}")?,
        })
    }

    pub(super) fn changes(&mut self, alloc: Global) -> Result<Vec<Change>, NoMemory> {
        let mut changes = Vec::new(alloc);
        for i in 0..CHANGES {
            self.first = i / PACE;
            let line = self.line(alloc)?;
            changes.push(change(alloc, line.as_str())?)?;
        }
        Ok(changes)
    }
}
