//! Rows of a table of values, worked by hand from the standard, which the meaning of terms meets by
//! computation. Each operator has at least two; `true`, `false`, a parameter and the hole have one.
ghost use Rattle.rare_meaning.specs.Settings.{Setting};
ghost use Rattle.rare_meaning.specs.rows.CoreRows.{CoreRows};
ghost use Rattle.rare_meaning.specs.rows.IntRows.{IntRows};
ghost use Rattle.rare_meaning.specs.rows.ArrayRows.{ArrayRows};
ghost use Rattle.rare_meaning.specs.rows.ArithmeticRows.{ArithmeticRows};
ghost use Rattle.rare_meaning.specs.rows.BitwiseRows.{BitwiseRows};
ghost use Rattle.rare_meaning.specs.rows.SliceRows.{SliceRows};
ghost use Rattle.rare_meaning.specs.rows.CollapseRows.{CollapseRows};
ghost use Rattle.rare_meaning.specs.rows.NameRows.{NameRows};

/// In every setting each operator gives the values of its rows.
pub fn rows_hold()
    ensures core { (e : Setting) → CoreRows e }
    ensures ints { (e : Setting) → IntRows e }
    ensures arrays { (e : Setting) → ArrayRows e }
    ensures arithmetic { (e : Setting) → ArithmeticRows e }
    ensures bitwise { (e : Setting) → BitwiseRows e }
    ensures slices { (e : Setting) → SliceRows e }
    ensures lists { (e : Setting) → CollapseRows e }
    ensures names { (e : Setting) → NameRows e }
{}
