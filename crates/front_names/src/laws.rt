//! Laws over the definitions alone.
ghost use Rattle.std.specs.Prelude.{◌≡◌, Some, false};
ghost use Rattle.base_language.specs.Language.Builtins.{builtin_of, is_one_of};
ghost use Rattle.base_language.specs.Language.Text.{Text};
ghost use Rattle.front_names.specs.Builtins.{builtin_names, meaning_of, name_of, property_of};
ghost use Rattle.front_names.specs.declared.builtin.Builtin.{Builtin};

/// The name of a builtin has its meaning in the language.
pub fn names_have_meanings()
    ensures { (b : Builtin) → builtin_of (name_of b) ≡ Some (meaning_of b) }
{}

/// A name that is not in the list has the meaning of a property, or none.
pub fn other_names_are_properties()
    ensures { (n : Text) → is_one_of builtin_names n ≡ false → builtin_of n ≡ property_of n }
{}
