ghost use Rattle.std.specs.Prelude.{◌≡◌, ◌||◌, [], ℕ, List, OnOk};
ghost use Rattle.dr_patterns.specs.Fitting.{fits_some, fits_text};
ghost use Rattle.dr_patterns.specs.Literals.{IsLiteral, starting, ending, holding};

use crate::kind::{Kind, kind_of};
use crate::words::Words;
use dr_base::Text;
use std::alloc::{AllocError, Global};
use std::marker::Model;

// Patterns, gathered by what they ask of a text. A contract sees the list of them.
#[derive(Drop)]
pub struct Gathered {
    // Those that are the text.
    pub words: Words,
    // What a text begins with.
    pub starts: Vec<Text>,
    // What a text ends with.
    pub ends: Vec<Text>,
    // What stands at some place in a text.
    pub parts: Vec<Text>,
    // Those that ask something else.
    pub others: Vec<Text>,
}

impl Model for Gathered {
    ghost use Rattle.std.specs.Prelude.{ℕ, List};
    ghost use Rattle.dr_patterns.specs.Literals.{patterns_of, MadeOfLiterals};

    ghost Value = { List (List ℕ) };

    ghost view = { λ g. patterns_of g.words g.starts.items g.ends.items g.parts.items g.others.items };

    ghost invariant = { λ g. MadeOfLiterals g.words g.starts.items g.ends.items g.parts.items };
}

impl Gathered {
    // No pattern. It takes no memory yet.
    pub fn new(alloc: Global) -> Gathered
        ensures { result ≡ [] }
    {
        Gathered {
            words: Words::new(alloc),
            starts: Vec::new(alloc),
            ends: Vec::new(alloc),
            parts: Vec::new(alloc),
            others: Vec::new(alloc),
        }
    }

    // Adds a pattern. The only error is that memory ran out. It takes time and memory by the bytes of the pattern.
    pub fn add(&mut self, alloc: Global, pattern: &Text) -> Result<(), AllocError>
        ensures { OnOk result ((text : List ℕ) → fits_some self.new text ≡ (fits_some self.old text || fits_text pattern.now text)) }
    {
        match kind_of(pattern.as_str()) {
            Kind::Whole(_) => self.add_word(pattern),
            Kind::Start(start) => self.add_start(alloc, start),
            Kind::End(end) => self.add_end(alloc, end),
            Kind::Part(part) => self.add_part(alloc, part),
            Kind::Other => self.add_other(pattern),
        }
    }

    fn add_word(&mut self, word: &Text) -> Result<(), AllocError>
        requires { IsLiteral word.now }
        ensures { OnOk result ((text : List ℕ) → fits_some self.new text ≡ (fits_some self.old text || fits_text word.now text)) }
    {
        self.words.add(word)?;
        Ok(())
    }

    fn add_start(&mut self, alloc: Global, start: &str) -> Result<(), AllocError>
        requires { IsLiteral start.now }
        ensures { OnOk result ((text : List ℕ) → fits_some self.new text ≡ (fits_some self.old text || fits_text (starting start.now) text)) }
    {
        self.starts.push(Text::from_str(alloc, start)?)?;
        Ok(())
    }

    fn add_end(&mut self, alloc: Global, end: &str) -> Result<(), AllocError>
        requires { IsLiteral end.now }
        ensures { OnOk result ((text : List ℕ) → fits_some self.new text ≡ (fits_some self.old text || fits_text (ending end.now) text)) }
    {
        self.ends.push(Text::from_str(alloc, end)?)?;
        Ok(())
    }

    fn add_part(&mut self, alloc: Global, part: &str) -> Result<(), AllocError>
        requires { IsLiteral part.now }
        ensures { OnOk result ((text : List ℕ) → fits_some self.new text ≡ (fits_some self.old text || fits_text (holding part.now) text)) }
    {
        self.parts.push(Text::from_str(alloc, part)?)?;
        Ok(())
    }

    fn add_other(&mut self, pattern: &Text) -> Result<(), AllocError>
        ensures { OnOk result ((text : List ℕ) → fits_some self.new text ≡ (fits_some self.old text || fits_text pattern.now text)) }
    {
        self.others.push(pattern.copy()?)?;
        Ok(())
    }
}
