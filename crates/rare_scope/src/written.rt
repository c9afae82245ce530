//! How the names of linear expressions are written.
ghost use Rattle.std.specs.Prelude.{◌≡◌, ◌<◌, length};
ghost use Rattle.rare_scope.specs.Names.{width_names};
ghost use Rattle.rare_scope.specs.Pieces.{piece_text};
ghost use Rattle.rare_scope.specs.Printing.{name_text};

use crate::pieces::Piece;
use crate::scope::Scope;

/// How the names of linear expressions are written.
pub trait WrittenNames {
    ghost use Rattle.std.specs.Prelude.{ℕ, List};

    /// How many names there are, numbered from 0.
    ghost count: { Self → ℕ };

    /// The text of each name.
    ghost text: { Self → ℕ → List ℕ };

    /// The piece that a name is written as.
    fn piece(&self, name: u32) -> Piece
        requires { name < count self.now }
        ensures { piece_text result ≡ text self.now name };
}

impl WrittenNames for Scope {
    ghost count = { λ scope. length (width_names scope) };

    ghost text = { λ scope. name_text (width_names scope) };

    fn piece(&self, name: u32) -> Piece {
        Piece::Symbol(self.width_name(name))
    }
}
