// Numbers held in 32 bits.
ghost use Rattle.std.specs.Prelude.{◌≡◌, [], IfOk};
ghost use Rattle.list_arena.specs.inside.Words.{word_held, IsWord, GrowsTo};

use dw_base::NoMemory;
use std::alloc::Global;
use std::marker::Model;

// Words below this one are their own numbers.
const FIRST_LONG: u32 = 1 << 31;

/// The numbers that don't fit 31 bits. A word of 32 bits is a number that does, or names one of these. Contracts see them as a list.
#[derive(Drop)]
pub(crate) struct LongNumbers {
    numbers: Vec<u64>,
}

impl Model for LongNumbers {
    ghost use Rattle.std.specs.Prelude.{ℕ, List};

    ghost Value = { List ℕ };

    ghost view = { λ l. l.numbers.items };
}

impl LongNumbers {
    /// None of them.
    pub fn new(alloc: Global) -> LongNumbers
        ensures { result ≡ [] }
    {
        LongNumbers {
            numbers: Vec::new(alloc),
        }
    }

    // A word for a number that doesn't fit 31 bits, which is one more of these then.
    fn long_word(&mut self, number: u64) -> Result<u32, NoMemory>
        ensures grown { GrowsTo self.old self.new }
        ensures word { IfOk result (λ word. IsWord self.new word × (word_held self.new word ≡ number)) }
    {
        let place = self.numbers.len();
        if place >= FIRST_LONG as usize {
            return Err(NoMemory);
        }
        self.numbers.push(number)?;
        Ok(FIRST_LONG + place as u32)
    }

    /// A word for a number. The only error is want of memory, which also answers the number past the first 2^31 that don't fit 31 bits.
    pub fn word(&mut self, number: u64) -> Result<u32, NoMemory>
        ensures grown { GrowsTo self.old self.new }
        ensures word { IfOk result (λ word. IsWord self.new word × (word_held self.new word ≡ number)) }
    {
        if number < u64::from(FIRST_LONG) {
            Ok(number as u32)
        } else {
            self.long_word(number)
        }
    }

    /// The number of a word.
    #[inline(always)]
    pub fn number(&self, word: u32) -> u64
        requires { IsWord self.now word }
        ensures { result ≡ word_held self.now word }
    {
        if word < FIRST_LONG {
            u64::from(word)
        } else {
            self.numbers[(word - FIRST_LONG) as usize]
        }
    }

    /// Gives the memory back that is held for numbers that didn't come.
    pub fn shrink_to_fit(&mut self)
        ensures { self.new ≡ self.old }
    {
        self.numbers.shrink_to_fit();
    }
}
