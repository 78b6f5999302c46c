// The occupied guides of a level, by its occupancy words, lowest first.
ghost use Rattle.std.specs.Prelude.{◌≡◌, ℕ, ◌-◌};
ghost use Rattle.std.specs.Iterator.{at_most};
ghost use Rattle.joint_cells.specs.Scan.{left, place_of, bit_of, words_of, Scans, GivesNext, Held};

use spec::{Guide, Level};

// Those that are still to come: from the guide `base` on by what is left of the word at hand, then by the words after it. That word is carried on, so
// that the next guide waits for no load.
#[derive(Clone, Copy)]
pub struct Occupied<'a> {
    base: usize,
    rest: u64,
    words: &'a [u64],
}

impl<'a> Occupied<'a> {
    // Those of a level, of m guides. The first word is loaded at once: with the test of `next` for it, a level would take a third longer.
    pub fn of(level: Level, m: usize, words: &'a [u64]) -> Occupied<'a>
        requires { Held m level.0 words.now }
        ensures scans { Scans result }
        ensures all { (g : ℕ) → left result g ≡ bit_of (words_of m level.0 words.now) g }
    {
        let k = m.div_ceil(64);
        let first = level.0 as usize * k;
        let words = &words[first..first + k];
        match words.split_first() {
            Some((word, others)) => Occupied {
                base: 0,
                rest: *word,
                words: others,
            },
            None => Occupied {
                base: 0,
                rest: 0,
                words,
            },
        }
    }
}

impl<'a> Iterator for Occupied<'a> {
    type Item = Guide;

    ghost can_next = { Scans };

    ghost next_gives = { GivesNext };

    ghost remaining = { λ s. at_most (256 - place_of s) };

    fn next(&mut self) -> Option<Guide> {
        // words without a guide are passed, however many they are
        while self.rest == 0 {
            let (word, others) = self.words.split_first()?;
            self.base += 64;
            self.rest = *word;
            self.words = others;
        }
        let bit = self.rest.trailing_zeros();
        self.rest &= self.rest - 1;
        Some(Guide(self.base as u16 + bit as u16))
    }
}
