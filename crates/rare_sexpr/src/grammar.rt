//! The law that ties the commands of a text to the grammar. It runs no code.

ghost use Rattle.std.specs.Prelude.{◌≡◌, ℕ, List};
ghost use Rattle.rare_base.specs.declared.answers.Place.{Place};
ghost use Rattle.rare_sexpr.specs.Commands.{Commands};
ghost use Rattle.rare_sexpr.specs.TextGrammar.{AreCommands};
ghost use Rattle.rare_sexpr.specs.Readings.{commands_from};

/// The commands of a text are those that its bytes spell, one behind the other, and its fault is the
/// one that stands behind them, by its place and its reason.
///
/// `read`: what is read is spelled so.
/// `one`: what is spelled so is read, so a text has one reading.
pub fn texts_are_spelled()
    ensures read { (p : Place) (bytes : List ℕ) → AreCommands p bytes (commands_from p bytes) }
    ensures one { (p : Place) (bytes : List ℕ) (c : Commands) → AreCommands p bytes c →
        c ≡ commands_from p bytes }
{}
