// What a tool's options are, and how they are read.
use crate::fault::WordFault;
use crate::piece::Piece;

/// How many words an option takes as its values.
#[derive(Clone, Copy)]
pub enum Wanted {
    /// So many.
    Each(usize),
    /// All that follow up to the first that isn't a number text, at least one.
    Numbers,
}

/// The options of a tool, as far as they were read. Each tool has a type of its own.
pub(crate) trait Options<'w>: Sized + Drop {
    ghost use Rattle.std.specs.Prelude.{◌≡◌, ◌≤◌, ℕ, Bool, List, None, Some, IfErr, OnOk, length, option_map, slice_get};
    ghost use Rattle.tool_words.specs.Words.{Text};
    ghost use Rattle.tool_words.specs.Grammar.{Grammar, Piece, takes_of};
    ghost use Rattle.tool_words.specs.Offence.{wrong_values};
    ghost use Rattle.tool_words.specs.Inner.Read.{wanted_of, HasValues};

    ghost grammar: { Grammar };

    ghost default: { Self };

    ghost chooses: { Self → Piece → Self };

    ghost clashes: { Self → Bool };

    // No tool has more names than are kept.
    ghost few_names: { length grammar.names ≤ 4 };

    // Nothing is chosen yet.
    fn new() -> Self
        ensures { result ≡ default };

    // How many words an option takes, if the tool has it.
    fn wanted(option: &str) -> Option<Wanted>
        ensures { result ≡ option_map wanted_of (takes_of grammar option.now) };

    // Takes an option with its values, which are all there.
    fn choose(&mut self, piece: &Piece<'w>) -> Result<(), WordFault>
        requires { HasValues grammar piece.now }
        ensures sound { OnOk result (wrong_values piece.now (takes_of grammar piece.now.word) ≡ None) }
        ensures ok { OnOk result (self.new ≡ chooses self.old piece.now) }
        ensures wrong { IfErr result (λ fault. wrong_values piece.now (takes_of grammar piece.now.word) ≡ Some fault) };

    // Whether a name is in the form of the name of a number, which counts from 0, if there may be so many.
    fn is_name(number: usize, name: &str) -> Option<bool>
        ensures { result ≡ option_map (λ form. form name.now) (slice_get grammar.names number) };

    // How many names must be there.
    fn required() -> usize
        ensures { result ≡ grammar.required };

    // Whether the options don't go together.
    fn clash(&self) -> bool
        ensures { result ≡ clashes self.now };
}
